// Bytes of a text, part by part: fixed strings and numbers, to a buffer or only counted. What the parts make together is
// left to the crates above: a line is written once, for any sink, so that what counts it is what puts it.
#![tactic(auto)]

ghost use Rattle.std.specs.Prelude.{ℕ, ◌≡◌, ◌++◌, ◌≤◌, List, length};
ghost use Rattle.text.specs.Text.{decimal};
ghost use Rattle.printer.specs.Puts.{Put};
ghost use Rattle.printer.specs.Sinks.{SinkLaws};
ghost use Rattle.printer.specs.Counted.{CountFits, CountTakes, count_laws};
ghost use Rattle.printer.specs.Taken.{BufferFits, BufferTakes, buffer_laws};

// What takes the bytes of a text, as far as they fit.
pub trait Sink {
    ghost fits: { Self → List ℕ → Type 0 };

    ghost takes: { Self → List ℕ → Self → Type 0 };

    ghost laws: { SinkLaws fits takes };

    fn put_bytes(&mut self, l: &[u8])
        requires { fits self.old l.now }
        ensures { takes self.old l.now self.new };

    fn put_number(&mut self, v: u64)
        requires { fits self.old (decimal v) }
        ensures { takes self.old (decimal v) self.new };

    // A fixed string and a number behind it.
    final fn put_field(&mut self, l: &[u8], v: u64)
        requires { fits self.old (l.now ++ decimal v) }
        ensures { takes self.old (l.now ++ decimal v) self.new }
    {
        self.put_bytes(l);
        self.put_number(v);
    }
}

// Only counts the bytes.
#[derive(Clone, Copy)]
pub struct Count {
    pub bytes: usize,
}

impl Sink for Count {
    ghost fits = { CountFits };

    ghost takes = { CountTakes };

    ghost laws = { count_laws };

    fn put_bytes(&mut self, l: &[u8]) {
        self.bytes += l.len();
    }

    fn put_number(&mut self, v: u64) {
        self.bytes += count_number(v);
    }
}

// Puts the bytes to a buffer, from a place on: each part's writer is lent the rest that is not yet written.
#[derive(Drop)]
pub struct Buffer<'a> {
    pub all: &'a mut [u8],
    pub at: usize,
}

impl<'a> Sink for Buffer<'a> {
    ghost fits = { BufferFits };

    ghost takes = { BufferTakes };

    ghost laws = { buffer_laws };

    fn put_bytes(&mut self, l: &[u8]) {
        let at = self.at;
        self.at += put_bytes(&mut self.all[at..], l);
    }

    fn put_number(&mut self, v: u64) {
        let at = self.at;
        self.at += put_number(&mut self.all[at..], v);
    }
}

// How many digits a number has.
fn count_number(v: u64) -> usize
    ensures { result ≡ length (decimal v) }
{
    match v.checked_ilog10() {
        Some(power) => power as usize + 1,
        None => 1,
    }
}

// Copies bytes to the front of a buffer.
pub fn put_bytes(buf: &mut [u8], l: &[u8]) -> usize
    requires { length l.now ≤ length buf.old }
    ensures { Put l.now buf.old buf.new result }
{
    buf[..l.len()].copy_from_slice(l);
    l.len()
}

// The decimal digits of a number, to the front of a buffer: filled from the back, as a division gives them.
fn put_number(buf: &mut [u8], v: u64) -> usize
    requires { length (decimal v) ≤ length buf.old }
    ensures { Put (decimal v) buf.old buf.new result }
{
    let n = count_number(v);
    let mut x = v;
    for i in (1..n).rev() {
        buf[i] = b'0' + (x % 10) as u8;
        x /= 10;
    }
    buf[0] = b'0' + x as u8;
    n
}
