// Standard output. A write may take fewer bytes than it is given, so that the rest is offered again.
ghost use Rattle.answer.specs.Answer.{Prints};
ghost use Rattle.seedspell.specs.Program.{OutputFits, OutputPut};

use std::io::{ErrorKind, Write};

// Only so many bytes of an output were taken, and not the rest.
#[derive(Clone, Copy)]
pub(crate) struct CutShort(usize);

// Writes bytes: all of them, unless a write fails or 1,000 retries are used up. Each turn gets rid of a byte or uses up
// a retry, so that the loop ends: a write that takes nothing without an error counts as interrupted.
// std's write_all gives no count where it fails, and tries 2^64 times.
pub(crate) fn write_bytes<W: Write>(writer: &mut W, bytes: &[u8]) -> Result<(), CutShort>
    ensures fits { OutputFits bytes.now result }
    ensures put { OutputPut (W.contents writer.old) (W.contents writer.new) bytes.now result }
{
    let mut n = 0;
    let mut retries: usize = 1000;
    while n < bytes.len() {
        let k = match writer.write(&bytes[n..]) {
            Ok(k) => k,
            Err(e) if e.kind() == ErrorKind::Interrupted => 0,
            Err(_) => return Err(CutShort(n)),
        };
        if k == 0 {
            if retries == 0 {
                return Err(CutShort(n));
            }
            retries -= 1;
        }
        n += k;
    }
    Ok(())
}

// Writes the answer to an input. Nothing else writes to standard output; the input is there for the contract to speak
// of it.
pub(crate) fn write_answer<W: Write>(
    writer: &mut W,
    input: &[u8],
    answer: &[u8],
) -> Result<(), CutShort>
    requires { Prints input.now answer.now }
    ensures fits { OutputFits answer.now result }
    ensures put { OutputPut (W.contents writer.old) (W.contents writer.new) answer.now result }
{
    write_bytes(writer, answer)
}
