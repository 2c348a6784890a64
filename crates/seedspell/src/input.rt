// Standard input, read to its end or until 8,192 bytes are there. Every well-formed text is shorter, so that a longer
// input is refused by what it has in those bytes, and its rest is left unread.
ghost use Rattle.seedspell.specs.Program.{InputFits, InputTaken};

use std::io;
use std::io::{ErrorKind, Read};

// Reads until the input ends or the places are full, and gives how many bytes came: fewer than were asked for are no
// end, since a pipe hands out what it has. Each turn brings a byte or uses up one of 1,000 retries, so that the loop
// ends: the room that is left and the retries that are left, together, get less with each turn.
// std's read_exact gives no count where the input ends, and tries 2^64 times.
pub(crate) fn read_input<R: Read>(reader: &mut R, bytes: &mut [u8; 8192]) -> io::Result<usize>
    ensures fits { InputFits bytes.new result }
    ensures taken { InputTaken (R.remaining reader.old) (R.remaining reader.new) bytes.new result }
{
    let mut n = 0;
    let mut retries: usize = 1000;
    while n < 8192 {
        match reader.read(&mut bytes[n..]) {
            Ok(0) => return Ok(n),
            Ok(k) => n += k,
            Err(e) => {
                if e.kind() != ErrorKind::Interrupted || retries == 0 {
                    return Err(e);
                }
                retries -= 1;
            }
        }
    }
    Ok(n)
}
