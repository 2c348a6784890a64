// Lines of the input, read in pieces to a buffer of fixed size.
ghost use Rattle.std.specs.Prelude.{◌≡◌, ◌+◌, ◌≤◌, length, take, drop};
ghost use Rattle.std.specs.Io.KnownBytes.{Consumes};

use std::io::Read;

// What was read and not yet taken: the bytes of the buffer from `at` to `have`.
#[derive(Drop)]
pub(crate) struct Input {
    buf: [u8; 4096],
    at: usize,
    have: usize,
}

// One read, to the places from `at` on: how many bytes came, and none where the input ends or the read fails.
fn read_more<R: Read>(reader: &mut R, buf: &mut [u8], at: usize) -> usize
    requires { at ≤ length buf.old }
    ensures kept { take at buf.new ≡ take at buf.old }
    ensures within { at + result ≤ length buf.new }
    ensures taken { Consumes (R.remaining reader.old) (R.remaining reader.new)
        (take result (drop at buf.new)) }
{
    reader.read(&mut buf[at..]).unwrap_or(0)
}

// Reads until the buffer is full, the input ends or a read fails, and gives how many bytes came, to the buffer's front.
fn fill<R: Read>(reader: &mut R, buf: &mut [u8]) -> usize
    ensures within { result ≤ length buf.new }
    ensures taken { Consumes (R.remaining reader.old) (R.remaining reader.new) (take result buf.new) }
{
    let mut have = 0;
    while have < buf.len() {
        let k = read_more(reader, buf, have);
        if k == 0 {
            return have;
        }
        have += k;
    }
    have
}

impl Input {
    pub(crate) fn new() -> Input {
        Input {
            buf: [0; 4096],
            at: 0,
            have: 0,
        }
    }

    // The next byte. A read that fails, or that a signal interrupts before the buffer has a byte, counts as the end of
    // the input.
    fn byte<R: Read>(&mut self, reader: &mut R) -> Option<u8> {
        if self.at >= self.have {
            self.have = fill(reader, &mut self.buf);
            self.at = 0;
        }
        let b = *self.buf.get(..self.have)?.get(self.at)?;
        self.at += 1;
        Some(b)
    }

    // The bytes up to the next byte 10, with it: how many. Fewer stand there where the input ends, or where there is no
    // room for more.
    pub(crate) fn line<R: Read>(&mut self, reader: &mut R, line: &mut [u8; 65536]) -> usize
        ensures { result ≤ 65536 }
    {
        for n in 0..65536 {
            match self.byte(reader) {
                None => return n,
                Some(b'\n') => {
                    line[n] = b'\n';
                    return n + 1;
                },
                Some(b) => line[n] = b,
            }
        }
        65536
    }
}
