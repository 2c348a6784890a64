// Runs the calls on stored records: each line of standard input is a record, and gets a line of standard output.
// README.md has the form of both. What is proved of the program is that it is safe and ends; what it prints is held to
// the stored lines by comparison.
#![tactic(auto)]

mod input;
mod items;
mod print;

ghost use Rattle.std.specs.Prelude.{◌≤◌};

use input::Input;
use items::Items;
use layout::Layout;
use std::io::{Read, Write};
use taskset::Engine;

// A function for each kind of record. It takes the record's name and the items behind it, runs the call and prints the
// line, but for the byte that ends it. Where the record is not of its form, it prints nothing and gives `None`.

// A record for check_set: the list of a set.
fn check_record<W: Write>(to: &mut W, name: &[u8], mut items: Items<'_>) -> Option<()> {
    let mut words = [0u32; 400];
    let set = items.list(&mut words)?;
    items.end()?;
    let a = checks::check_set(set, Layout::Ordinary);
    print::text(to, name);
    print::checked(to, a);
    Some(())
}

// A record for the walk: the list of a set, and a plan.
fn walk_record<W: Write>(to: &mut W, name: &[u8], mut items: Items<'_>) -> Option<()> {
    let mut words = [0u32; 400];
    let set = items.list(&mut words)?;
    let mut rates = [0u32; 40];
    let plan = items.list(&mut rates)?;
    items.end()?;
    let a = walk::walk(set, plan);
    print::text(to, name);
    print::walked(to, a);
    Some(())
}

// A record for the planner: the list of a set, how many words are lent for the plan, and how many working words, which
// hold something else than 0 before the call.
fn plan_record<W: Write>(to: &mut W, name: &[u8], mut items: Items<'_>) -> Option<()> {
    let mut words = [0u32; 400];
    let set = items.list(&mut words)?;
    let lent = items.count(64)?;
    let working = items.count(16384)?;
    items.end()?;
    let mut work = [7u32; 16384];
    let engine = Engine::Table(Layout::Ordinary);
    run_planner(to, name, set, engine, lent, &mut work[..working]);
    Some(())
}

// A record for the dull engine: the list of a set, and how many words are lent for the plan.
fn dull_record<W: Write>(to: &mut W, name: &[u8], mut items: Items<'_>) -> Option<()> {
    let mut words = [0u32; 400];
    let set = items.list(&mut words)?;
    let lent = items.count(64)?;
    items.end()?;
    run_planner(to, name, set, Engine::Exhaustive, lent, &mut [7]);
    Some(())
}

// The words lent for the plan hold 0 before the call, which is no rate number.
fn run_planner<W: Write>(
    to: &mut W,
    name: &[u8],
    set: &[u32],
    engine: Engine,
    lent: usize,
    work: &mut [u32],
)
    requires { lent ≤ 64 }
{
    let mut plan = [0u32; 400];
    let a = planner::plan(set, engine, &mut plan[..lent], work);
    print::text(to, name);
    print::planned(to, a, &plan);
}

// A record for the reader: how many words are lent, and a text. The words hold 7 before the call, also those that are
// not lent, so that a word that the call must not write shows when it does.
fn read_record<W: Write>(to: &mut W, name: &[u8], mut items: Items<'_>) -> Option<()> {
    let lent = items.count(400)?;
    let text = items.text()?;
    let mut words = [7u32; 400];
    let a = reader::read(text, &mut words[..lent]);
    print::text(to, name);
    print::listed(to, "read", a, &words);
    Some(())
}

// A record for the writer: the list of a set, and how many bytes are lent. They hold 7 before the call, which no text
// has.
fn write_record<W: Write>(to: &mut W, name: &[u8], mut items: Items<'_>) -> Option<()> {
    let mut words = [0u32; 400];
    let set = items.list(&mut words)?;
    let lent = items.count(8192)?;
    items.end()?;
    let mut text = [7u8; 8192];
    let a = writer::write(set, &mut text[..lent]);
    print::text(to, name);
    print::wrote(to, "wrote", a, &text);
    Some(())
}

// A record for the program's call: how many bytes are lent, and a text. The bytes hold 7 before the call, which no
// output has.
fn respond_record<W: Write>(to: &mut W, name: &[u8], mut items: Items<'_>) -> Option<()> {
    let lent = items.count(2048)?;
    let input = items.text()?;
    let mut text = [7u8; 8192];
    let a = answer::respond(input, &mut text[..lent]);
    print::text(to, name);
    print::wrote(to, "prints", a, &text);
    Some(())
}

// A record for the generator: the seed, how many tasks, and how many words are lent. The words hold 7 before the call,
// as those of the reader do.
fn generate_record<W: Write>(to: &mut W, name: &[u8], mut items: Items<'_>) -> Option<()> {
    let seed = items.number()?;
    let tasks = items.number()?;
    let lent = items.count(400)?;
    items.end()?;
    let mut words = [7u32; 400];
    let a = generator::generate(seed, tasks, &mut words[..lent]);
    print::text(to, name);
    print::listed(to, "generated", a, &words);
    Some(())
}

// A record of any kind: the byte that says which, its name, of 1 to 40 bytes, and what stands behind it.
fn record<W: Write>(to: &mut W, s: &[u8]) -> Option<()> {
    let (kind, rest) = s.split_first()?;
    let mut items = Items::new(rest);
    let name = items.word()?;
    if name.len() > 40 {
        return None;
    }
    match *kind {
        b'c' => check_record(to, name, items),
        b'w' => walk_record(to, name, items),
        b'p' => plan_record(to, name, items),
        b'd' => dull_record(to, name, items),
        b'r' => read_record(to, name, items),
        b't' => write_record(to, name, items),
        b'a' => respond_record(to, name, items),
        b'g' => generate_record(to, name, items),
        _ => None,
    }
}

// Answers a line, if it is a record and has the byte that ends it. `|` stands there for byte 10, which no line can hold.
fn reply<W: Write>(to: &mut W, line: &mut [u8]) -> Option<()> {
    let (end, s) = line.split_last_mut()?;
    if *end != b'\n' {
        return None;
    }
    for b in s.iter_mut() {
        if *b == b'|' {
            *b = b'\n';
        }
    }
    record(to, s)
}

// Answers the lines of the input, up to the first that is no record: one of more than 65,535 bytes is none. Nothing says
// that the input ends, so that the turns are counted, up to a number that no run uses up.
fn answer_all<R: Read, W: Write>(reader: &mut R, to: &mut W) {
    let mut input = Input::new();
    let mut line = [0u8; 65536];
    for _ in 0..u64::MAX {
        let n = input.line(reader, &mut line);
        if n == 0 {
            return;
        }
        if reply(to, &mut line[..n]).is_none() {
            print::say(to, b"bad record\n");
            return;
        }
        print::say(to, b"\n");
    }
}

fn main(rt: HostRuntime) {
    answer_all(&mut rt.stdin(), &mut rt.stdout());
}
