// The generator of task sets for the bench: a seed and a task count in, a set's list of words out, the same on every
// machine. It draws by a linear congruential generator of 32 bits. What its sets are planned or walked for is left to
// others.
#![tactic(auto)]

ghost use Rattle.std.specs.Prelude.{◌≡◌, ◌+◌, ◌*◌, ◌/◌, ◌%◌, ◌^◌, ◌≤◌, length};
ghost use Rattle.layout.specs.Words.{most_tasks, tasks_place, task_size, period_place};
ghost use Rattle.layout.specs.declared.Layout.TheVariants.{Ordinary};
ghost use Rattle.lists.specs.Writing.{placed, written};
ghost use Rattle.draws.specs.Generated;
ghost use Rattle.draws.specs.Generated.{state_after, drawn_period, drawn_energy, rate_of, task_words, tasks_words, front_words, generated};
ghost use Rattle.draws.specs.Calls.{GeneratorCall};
ghost use Rattle.generator.specs.Steps.{RoomAfter};

use layout::Layout;
use taskset::{CopyAnswer, Refusal};

// The numbers of a step of the state.
const MULTIPLIER: u32 = 1_664_525;

const INCREMENT: u32 = 1_013_904_223;

// The rates of every set.
const RATES: usize = 5;

// The periods that a draw chooses among.
const PERIODS: [u32; 8] = [10, 20, 25, 40, 50, 100, 200, 400];

// a × b, modulo 2^32: a function of its own, since document 02 names such a helper (docs/DECISIONS.md).
fn wrapping_mul(a: u32, b: u32) -> u32
    ensures { result ≡ a * b % 2 ^ 32 }
{
    a.wrapping_mul(b)
}

// The state after one more step.
#[tactic(auto, unfolding(draws::specs::Generated::next))]
fn next(state: u32) -> u32
    ensures { result ≡ Generated.next state }
{
    wrapping_mul(state, MULTIPLIER).wrapping_add(INCREMENT)
}

// The draw that a new state gives: its high half, since the low bits of such a generator soon repeat.
fn draw(state: u32) -> u32
    ensures { result ≡ state / 65536 }
{
    state / 65_536
}

// The period that a draw chooses.
fn period(x: u32) -> u32
    ensures { result ≡ drawn_period x }
{
    PERIODS[(x % 8) as usize]
}

// The rate with rate number j.
fn rate(j: usize) -> u32
    requires { j ≤ 5 }
    ensures { result ≡ rate_of j }
{
    100 * j as u32
}

// The energy at rate number j that a draw gives.
fn energy(x: u32, j: usize) -> u32
    requires { j ≤ 5 }
    ensures { result ≡ drawn_energy x j }
{
    let r = j as u32;
    (2 + x % 9) * r * r
}

// The words of a task, drawn from a state on, to the list from a place on: the period and the cycles are the first words
// of a task in every layout, and its energies the last. Returns the state after the three draws.
fn put_task(list: &mut [u32], at: usize, state: u32) -> u32
    requires { at + task_size Ordinary 5 ≤ length list.old }
    ensures { (result ≡ state_after state 3) × (list.new ≡ written at (task_words state 0) list.old) }
{
    let first = next(state);
    let second = next(first);
    let third = next(second);
    let p = period(draw(first));
    let c = 1 + draw(second) % 1_000;
    let x = draw(third);
    list[at] = p;
    list[at + places::CYCLES_IN_TASK] = c;
    let before = places::before_energies(Layout::Ordinary);
    list[at + places::FIRST_IN_TASK..at + before].fill(0);
    lists::put_each(list, at + before, RATES, |j| energy(x, j));
    third
}

// The words of n tasks, to the list, where they stand behind the rates.
fn put_tasks(list: &mut [u32], seed: u32, n: usize)
    requires { (n ≤ most_tasks) × (period_place Ordinary 5 n ≤ length list.old) }
    ensures { list.new ≡ written (tasks_place Ordinary 5) (tasks_words seed n) list.old }
{
    let mut state = seed;
    for t in 0..n {
        let at = places::period_place(Layout::Ordinary, RATES, t);
        state = put_task(list, at, state);
    }
}

// The words before the tasks, to the front of the list: the slack is the first word in every layout.
#[tactic(auto, using(layout::proofs::Layouts::slack_in_head))]
fn put_front(list: &mut [u32], n: u32)
    requires { tasks_place Ordinary 5 ≤ length list.old }
    ensures { list.new ≡ written 0 (front_words n) list.old }
{
    let head = places::head_size(Layout::Ordinary);
    list[places::SLACK_PLACE] = 100;
    list[places::IDLE_PLACE..head].fill(0);
    list[head] = RATES as u32;
    lists::put_each(list, head + 1, RATES, rate);
    list[places::task_count_place(Layout::Ordinary, RATES)] = n;
}

// Checks 2 and 6: how many words a set of n tasks has, or a refusal. lent is the length of the list.
pub fn ready(n: u32, lent: usize) -> Result<usize, Refusal>
    ensures { RoomAfter n lent result }
{
    if !(1..=places::MOST_TASKS).contains(&(n as usize)) {
        return Err(Refusal::BadWord(0));
    }
    let needed = places::period_place(Layout::Ordinary, RATES, n as usize);
    if lent < needed {
        return Err(Refusal::TooShort(needed));
    }
    Ok(needed)
}

// A set's words, to the front of a list that has passed the checks.
pub fn put_set(seed: u32, n: u32, list: &mut [u32])
    requires { (n ≤ most_tasks) × (length (generated seed n) ≤ length list.old) }
    ensures { list.new ≡ placed (generated seed n) list.old }
{
    put_front(list, n);
    put_tasks(list, seed, n as usize);
}

// The set of a seed and a task count, to the front of the list lent: refusal 2 or 6, or how many words were written.
pub fn generate(seed: u32, n: u32, list: &mut [u32]) -> CopyAnswer
    ensures { GeneratorCall seed n list.old list.new result }
{
    let length = ready(n, list.len())?;
    put_set(seed, n, list);
    Ok(length)
}
