// The reader of the bracketed text: the set's list of words; or the first byte at which the text departs from the form;
// or, where a chip's tables give the energies, the first task with one over the largest. One pass over the text into a
// list of its own; the list lent is changed only when all of it is read and fits. Ranges are not judged here.
#![tactic(auto)]

ghost use Rattle.std.specs.Prelude.{◌≡◌, suc, ◌≤◌, ◌<◌, ◌↔◌, length, IsTrue, SomeIndex, slice_index};
ghost use Rattle.layout.specs.Words.{most_energy};
ghost use Rattle.text.specs.Calls.{ReaderGives};
ghost use Rattle.lists.specs.Writing.{placed};
ghost use Rattle.reader.specs.Over.{OverIn, Holds, FirstNumber, OverTask};

use forms::{Clock, Said};
use layout::Layout;
use scanner::Cursor;
use taskset::{CopyAnswer, Refusal};

// Copies words to the front of a list.
fn put_words(out: &mut [u32], l: &[u32]) -> usize
    requires { length l.now ≤ length out.old }
    ensures { (result ≡ length l.now) × (out.new ≡ placed l.now out.old) }
{
    out[..l.len()].copy_from_slice(l);
    l.len()
}

// Whether one of some energies is over the largest.
fn any_over(energies: &[u32]) -> bool
    ensures { IsTrue result ↔ SomeIndex energies.now (λ k. most_energy < slice_index energies.now k) }
{
    energies
        .iter()
        .any(|energy| places::MOST_ENERGY < *energy as u64)
}

// Whether the task at t has such an energy, of m.
fn has_over(set: &[u32], m: usize, t: usize) -> bool
    requires { Holds set.now m (suc t) }
    ensures { IsTrue result ↔ OverIn set.now m t }
{
    let first = places::energy_place(Layout::Ordinary, m, t, 1);
    any_over(&set[first..first + m])
}

// The number of the first of n tasks that has such an energy.
fn first_over(set: &[u32], m: usize, n: usize) -> Option<usize>
    requires { Holds set.now m n }
    ensures { FirstNumber (OverIn set.now m) n result }
{
    for t in 0..n {
        if has_over(set, m, t) {
            return Some(t + 1);
        }
    }
    None
}

// The number of the first task with an energy that was worked out and is over the largest.
fn over_task(set: &[u32], said: Said) -> Option<usize>
    requires { Holds set.now said.rates said.tasks }
    ensures { OverTask set.now said result }
{
    match said.clock {
        Clock::Rates(_) => None,
        Clock::Named(_) => first_over(set, said.rates, said.tasks),
    }
}

// Reads a text and writes its words to the front of the list lent. What the checks ask for is worked out before them, so
// that they stand one after the other: 1, 9, 6.
pub fn read(text: &[u8], words: &mut [u32]) -> CopyAnswer
    ensures { ReaderGives text.now words.old words.new result }
{
    let mut set = [0u32; places::MOST_WORDS];
    let mut cursor = Cursor::new(text, 0);
    match forms::read_set(&mut cursor, &mut set) {
        Ok(said) => {
            let n = said.words;
            let i = cursor.at();
            let over = over_task(&set, said);
            let is_left_over = i < text.len();
            let is_short = words.len() < n;
            if is_left_over {
                return Err(Refusal::TextDeparts(i));
            }
            if let Some(k) = over {
                return Err(Refusal::EnergyOver(k));
            }
            if is_short {
                return Err(Refusal::TooShort(n));
            }
            Ok(put_words(words, &set[..n]))
        }
        Err(departure) => Err(Refusal::TextDeparts(departure.at)),
    }
}
