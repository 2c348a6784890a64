// The parts of the line that answers a record, each written as it comes. What cannot be written is left out: the line is
// then not the stored one, which shows.
use std::io::Write;
use taskset::{Checked, CopyAnswer, PlannerAnswer, Refusal, WalkAnswer, WalkEnd};

pub(crate) fn say<W: Write>(to: &mut W, word: &[u8]) {
    let _ = to.write_all(word);
}

// The words of a list in a row.
fn words<W: Write>(to: &mut W, list: &[u32]) {
    for x in list {
        let _ = write!(to, " {x}");
    }
}

// A text. `|` stands for byte 10, as it does in a record.
pub(crate) fn text<W: Write>(to: &mut W, text: &[u8]) {
    for (i, line) in text.split(|b| *b == b'\n').enumerate() {
        if i > 0 {
            say(to, b"|");
        }
        say(to, line);
    }
}

// A refusal, from any call.
fn refused<W: Write>(to: &mut W, f: Refusal) {
    let number = figures::number_of(f);
    let second = figures::second_of(f);
    let _ = write!(to, " refused {number} {second}");
}

// The answer of check_set.
pub(crate) fn checked<W: Write>(to: &mut W, a: Checked) {
    match a {
        Ok(set) => {
            let _ = write!(to, " good {} {} {}", set.rates, set.tasks, set.hyper);
        }
        Err(f) => refused(to, f),
    }
}

// The answer of the walk.
pub(crate) fn walked<W: Write>(to: &mut W, a: WalkAnswer) {
    match a {
        Ok(
            WalkEnd::Kept {
                busy,
                idle,
                preempted,
            },
        ) => {
            let _ = write!(to, " kept {busy} {idle} {preempted}");
        }
        Ok(WalkEnd::Missed { tick, task }) => {
            let _ = write!(to, " missed {tick} {task}");
        }
        Err(f) => refused(to, f),
    }
}

// The answer of the planner or the dull engine, with the rate numbers of the plan, whose words held 0 before the call.
pub(crate) fn planned<W: Write>(to: &mut W, a: PlannerAnswer, plan: &[u32]) {
    let used = used(plan, 0);
    match a {
        Ok(p) => {
            let _ = write!(
                to,
                " planned {} {} {} {}",
                p.unit, p.load, p.hyper, p.energy
            );
            words(to, used);
        }
        Err(f) => {
            refused(to, f);
            changed(to, !used.is_empty());
        }
    }
}

// The answer of the reader or the generator: the word that names what was done, and the words that were written. The
// list held 7 before the call.
pub(crate) fn listed<W: Write>(to: &mut W, done: &str, a: CopyAnswer, list: &[u32]) {
    copied(to, done, a, list, 7, words);
}

// The answer of the writer or the program's call: the word that names what was done, and the text that was written. The
// buffer held 7 before the call, which no text has.
pub(crate) fn wrote<W: Write>(to: &mut W, done: &str, a: CopyAnswer, buffer: &[u8]) {
    copied(to, done, a, buffer, 7, |to, t| {
        say(to, b" ");
        text(to, t);
    });
}

// The answer of a call that writes to the front of a list, which held `before`: what was written is printed by `show`.
fn copied<W: Write, T: Copy + PartialEq, S: FnOnce(&mut W, &[T])>(
    to: &mut W,
    done: &str,
    a: CopyAnswer,
    list: &[T],
    before: T,
    show: S,
)
    requires { S.IsAlwaysCallable show }
{
    let used = used(list, before).len();
    match a {
        Ok(count) => {
            let _ = write!(to, " {done} {count}");
            if let Some(written) = list.get(..count) {
                show(to, written);
            }
            changed(to, used > count);
        }
        Err(f) => {
            refused(to, f);
            changed(to, used > 0);
        }
    }
}

// Says so, behind an answer, where a call has changed what it must leave as it was.
fn changed<W: Write>(to: &mut W, is: bool) {
    if is {
        say(to, b" changed");
    }
}

// What a call has used of a list that held `before` everywhere: all up to the last that holds something else.
fn used<T: Copy + PartialEq>(list: &[T], before: T) -> &[T] {
    let end = list
        .iter()
        .rposition(|x| *x != before)
        .map_or(0, |last| last + 1);
    &list[..end]
}
