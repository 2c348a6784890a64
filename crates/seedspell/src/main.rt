// The program: plans the set whose text stands on standard input, and prints the plan's lines, or the line of the
// refusal.
//
// What it does with what it reads, writes and complains to is the contract of `run`, at any reader and writers: to
// standard output goes the answer to the input, however long that is, all of it or, with a complaint, its front; where
// the input cannot be read, a complaint and no more. It plans what it has read where a read has found the end of the
// input, or where all 8,192 places are taken. Which bytes the system's own calls bring, and where those of a write go,
// no contract can say: std's reads and writes of standard input, output and error are taken at their word. The program
// always returns, however often a signal interrupts it. Where it ends by itself its exit status is 0, so that an input
// that cannot be read, or an answer that cannot be written, shows on standard error only.
#![tactic(auto)]

mod input;
mod output;

ghost use Rattle.std.specs.Prelude.{IfSome};
ghost use Rattle.seedspell.specs.Program.{Answered, Begins, Plans, Runs, Answers};

use std::io::{Read, Write};

// What is said on standard error.
const UNREADABLE: &[u8] = b"seedspell: standard input cannot be read\n";

const UNWRITABLE: &[u8] = b"seedspell: the answer cannot be written to standard output\n";

// The answer to a text, at the front of the output: how many bytes. No answer is longer than 2,048 bytes, so that the
// call finds room and the second case does not occur.
fn answer_bytes(text: &[u8], output: &mut [u8; 2048]) -> usize
    ensures { Answered text.now output.new result }
{
    match answer::respond(text, output) {
        Ok(n) => n,
        Err(_) => unreachable!(),
    }
}

// Writes a line to standard error. Where that fails too, nothing is left to say it on.
fn complain<E: Write>(errors: &mut E, line: &[u8])
    ensures { Begins (E.contents errors.old) (E.contents errors.new) line.now }
{
    let _ = output::write_bytes(errors, line);
}

// Plans a text and writes the answer.
fn plan<W: Write, E: Write>(writer: &mut W, errors: &mut E, text: &[u8])
    ensures { Plans text.now (W.contents writer.old) (W.contents writer.new)
        (E.contents errors.old) (E.contents errors.new) UNWRITABLE.now }
{
    let mut output = [0u8; 2048];
    let n = answer_bytes(text, &mut output);
    if output::write_answer(writer, text, &output[..n]).is_err() {
        complain(errors, UNWRITABLE);
    }
}

// Reads the input and plans its text. This is all that the program does: main lends it standard input, output and error.
fn run<R: Read, W: Write, E: Write>(reader: &mut R, writer: &mut W, errors: &mut E)
    ensures runs { Runs (R.remaining reader.old) (R.remaining reader.new)
        (W.contents writer.old) (W.contents writer.new)
        (E.contents errors.old) (E.contents errors.new) UNREADABLE.now UNWRITABLE.now }
    ensures answers { IfSome (R.remaining reader.old)
        (λ all. Answers all (W.contents writer.old) (W.contents writer.new)
        (E.contents errors.old) (E.contents errors.new) UNREADABLE.now UNWRITABLE.now) }
{
    let mut bytes = [0u8; 8192];
    match input::read_input(reader, &mut bytes) {
        Ok(n) => plan(writer, errors, &bytes[..n]),
        Err(_) => complain(errors, UNREADABLE),
    }
}

fn main(rt: HostRuntime) {
    run(&mut rt.stdin(), &mut rt.stdout(), &mut rt.stderr());
}
