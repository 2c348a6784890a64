// The checks of a task set in code, and of one that has passed check 2 the readers of its words and quantities; with its
// counts it is a struct, in a file of its own, whose methods they are too. What each says is defined in `taskset`; what
// stands where in a list, and what each word may be, is left to layout, and in code to places.
#![tactic(auto)]

ghost use Rattle.std.specs.Prelude.{◌≡◌, [], ◌∷◌, ◌+◌, ◌<◌, ◌≤◌, length};
ghost use Rattle.layout.specs.Words.{idle_place, slack, idle, rate, period, cycles, first, energy};
ghost use Rattle.taskset.specs.Quantities.{job_time};
ghost use Rattle.taskset.specs.Refusals.{◌▹◌, word_check, rate_check, word_checks, idle_check, idle_checks, hyper_check};
ghost use Rattle.taskset.specs.Calls.{CountsAfter, SetAfter};
ghost use Rattle.taskset.specs.Sets.{Below};
ghost use Rattle.checks.specs.Steps.{WordAfter, FrontAfter, FrontPassed, OfTask, FoundIn, PassedAfter};

mod set;

use layout::{Kind, Layout};
pub use set::Set;
use taskset::{Checked, Counts, Measured, Refusal, Shape};

// The largest hyper-period.
const HYPER_LIMIT: u64 = 10_000_000;

// The word at place q, which must be there and in the range of its kind.
fn word_at(s: &[u32], q: usize, kind: Kind) -> Result<usize, Refusal>
    requires { q ≤ length s.now }
    ensures { WordAfter s.now q kind result }
{
    if q < s.len() && places::is_allowed(s, q, kind) {
        Ok(s[q] as usize)
    } else {
        Err(Refusal::BadWord(q))
    }
}

// Check 2 of the words up to the task count.
fn check_front(s: &[u32], layout: Layout) -> Shape
    ensures { FrontAfter layout s.now result }
{
    let head = places::head_size(layout);
    for q in 0..head {
        word_at(s, q, places::head_kind(layout, q))?;
    }
    let rates = word_at(s, head, Kind::RateCount)?;
    let c = places::task_count_place(layout, rates);
    for q in head + 1..c {
        word_at(s, q, Kind::Rate)?;
    }
    let tasks = word_at(s, c, Kind::TaskCount)?;
    Ok(Counts { rates, tasks })
}

// Check 2 of the words behind it, task by task.
#[tactic(auto, using(crate::proofs::Fronts::left_over))]
fn check_tasks(s: &[u32], layout: Layout, counts: Counts) -> Result<(), Refusal>
    requires { FrontPassed layout counts.rates counts.tasks s.now }
    ensures { PassedAfter (word_check layout s.now ∷ []) result }
{
    let size = places::task_size(layout, counts.rates);
    for t in 0..counts.tasks {
        let at = places::period_place(layout, counts.rates, t);
        for k in 0..size {
            word_at(s, at + k, places::task_kind(layout, k))?;
        }
    }
    let end = places::period_place(layout, counts.rates, counts.tasks);
    if end < s.len() {
        return Err(Refusal::BadWord(end));
    }
    Ok(())
}

// Check 3.
fn check_rates(s: &[u32], layout: Layout, counts: Counts) -> Result<(), Refusal>
    requires { FrontPassed layout counts.rates counts.tasks s.now }
    ensures { PassedAfter (rate_check layout s.now ∷ []) result }
{
    for q in places::rate_place(layout, 2)..places::task_count_place(layout, counts.rates) {
        if s[q] <= s[q - 1] {
            return Err(Refusal::NotAbove(q));
        }
    }
    Ok(())
}

// Checks 2 and 3, in this order.
pub fn check_words(s: &[u32], layout: Layout) -> Shape
    ensures { CountsAfter (word_checks layout s.now) layout s.now result }
{
    let counts = check_front(s, layout)?;
    check_tasks(s, layout, counts)?;
    check_rates(s, layout, counts)?;
    Ok(counts)
}

// Check 4: the running multiple of the periods.
fn check_hyper(set: &Set) -> Checked
    ensures { SetAfter (hyper_check set.now.layout set.now.words.now ∷ []) set.now.layout set.now.words.now result }
{
    let mut hyper: u64 = 1;
    for t in 0..set.tasks {
        let p = u64::from(set.period(t));
        let next = hyper / arithmetic::common_divisor(hyper, p).value * p;
        let is_long = HYPER_LIMIT < next;
        if is_long {
            let at = places::period_place(set.layout, set.rates, t);
            return Err(Refusal::TooLong(at));
        }
        hyper = next;
    }
    Ok(Measured {
        rates: set.rates,
        tasks: set.tasks,
        hyper,
    })
}

// The first rate number at which the energy of the task at place t is below what idle ticks draw in the job's time.
fn below_rate(set: &Set, t: usize) -> Option<usize>
    requires { t < set.now.tasks }
    ensures { FoundIn (Below set.now.layout set.now.words.now t) 1 (set.now.rates + 1) result }
{
    let idle = u64::from(set.idle());
    for r in 1..=set.rates {
        let drawn = idle * u64::from(set.job_time(t, r));
        let energy = u64::from(set.energy(t, r));
        if energy < drawn {
            return Some(r);
        }
    }
    None
}

// Check 10: the first such energy of the first task that has one.
fn check_idle(set: &Set) -> Result<(), Refusal>
    ensures { PassedAfter (idle_check set.now.layout set.now.words.now ∷ []) result }
{
    for t in 0..set.tasks {
        if let Some(r) = below_rate(set, t) {
            let at = places::energy_place(set.layout, set.rates, t, r);
            return Err(Refusal::BelowIdle(at));
        }
    }
    Ok(())
}

// Checks 2, 3 and 4, in this order.
pub fn check_set(s: &[u32], layout: Layout) -> Checked
    ensures { SetAfter (word_checks layout s.now ▹ hyper_check layout s.now) layout s.now result }
{
    let counts = check_words(s, layout)?;
    let set = Set {
        words: s,
        layout,
        rates: counts.rates,
        tasks: counts.tasks,
    };
    check_hyper(&set)
}

// Checks 2, 3, 10 and 4, in this order: for whoever goes by energies.
pub fn check_covered(s: &[u32], layout: Layout) -> Checked
    ensures { SetAfter (idle_checks layout s.now ▹ hyper_check layout s.now) layout s.now result }
{
    let counts = check_words(s, layout)?;
    let set = Set {
        words: s,
        layout,
        rates: counts.rates,
        tasks: counts.tasks,
    };
    check_idle(&set)?;
    check_hyper(&set)
}

// The slack, of any list that has the word.
pub fn slack_of(s: &[u32]) -> u32
    requires { 0 < length s.now }
    ensures { result ≡ slack s.now }
{
    s[places::SLACK_PLACE]
}

// The idle energy of a tick, of any list that has the word.
pub fn idle_of(s: &[u32]) -> u32
    requires { idle_place < length s.now }
    ensures { result ≡ idle s.now }
{
    s[places::IDLE_PLACE]
}

// The period of the task at place t of a set of m rates.
pub fn period_of(s: &[u32], layout: Layout, m: usize, t: usize) -> u32
    requires { OfTask layout m t s.now }
    ensures { result ≡ period layout s.now t }
{
    s[places::period_place(layout, m, t)]
}

// The cycles of one job of the task at place t.
pub fn cycles_of(s: &[u32], layout: Layout, m: usize, t: usize) -> u32
    requires { OfTask layout m t s.now }
    ensures { result ≡ cycles layout s.now t }
{
    s[places::cycles_place(layout, m, t)]
}

// The first release of the task at place t.
pub fn first_of(s: &[u32], layout: Layout, m: usize, t: usize) -> u32
    requires { OfTask layout m t s.now }
    ensures { result ≡ first layout s.now t }
{
    s[places::first_place(layout, m, t)]
}

// The rate with rate number r, of a set of m rates that has a task at place t.
fn rate_of(s: &[u32], layout: Layout, m: usize, t: usize, r: usize) -> u32
    requires { OfTask layout m t s.now × (1 ≤ r) × (r ≤ m) }
    ensures { result ≡ rate layout s.now r }
{
    s[places::rate_place(layout, r)]
}

// The time of one job of the task at place t at rate number r.
pub fn job_time(s: &[u32], layout: Layout, m: usize, t: usize, r: usize) -> u32
    requires { OfTask layout m t s.now × (1 ≤ r) × (r ≤ m) }
    ensures { result ≡ job_time layout s.now t r }
{
    figures::job_ticks(cycles_of(s, layout, m, t), rate_of(s, layout, m, t, r))
}

// The energy of one job of the task at place t at rate number r.
pub fn energy_of(s: &[u32], layout: Layout, m: usize, t: usize, r: usize) -> u32
    requires { OfTask layout m t s.now × (1 ≤ r) × (r ≤ m) }
    ensures { result ≡ energy layout s.now t r }
{
    s[places::energy_place(layout, m, t, r)]
}
