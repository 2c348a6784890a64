// The list of words of a task set in code: how many words stand where, which kind each one is of, and whether it is in
// its range. What a list is, layout defines; what is made of its words is left to the crates above.
#![tactic(auto, using(layout::proofs::Layouts::head_few, layout::proofs::Layouts::extra_few))]

ghost use Rattle.std.specs.Prelude.{◌≡◌, ◌-◌, ◌^◌, ◌<◌, ◌≤◌, length};
ghost use Rattle.layout.specs.Words.{head_size, extra_size, most_rates, most_tasks, rate_place, task_count_place};
ghost use Rattle.layout.specs.Words.{tasks_place, task_size, period_place, cycles_place, first_place, energy_place};
ghost use Rattle.layout.specs.Words.{head_kind, task_kind, allows};

use layout::{Kind, Layout};

// The most tasks and words of the ordinary list.
pub const MOST_TASKS: usize = 32;

pub const MOST_WORDS: usize = 364;

// The largest energy of a job.
pub const MOST_ENERGY: u64 = 1_000_000;

// The place of the slack in every list, and of the idle energy.
pub const SLACK_PLACE: usize = 0;

pub const IDLE_PLACE: usize = 1;

// How far behind a task's first word, its period, its cycles stand in every list, and its first release.
pub const CYCLES_IN_TASK: usize = 1;

pub const FIRST_IN_TASK: usize = 2;

// How many words stand before the rate count.
#[tactic(auto, unfolding(layout::specs::Words::head_kinds))]
pub fn head_size(layout: Layout) -> usize
    ensures { result ≡ head_size layout }
{
    match layout {
        Layout::Ordinary => 2,
    }
}

// How many words stand between a task's cycles and its energies.
#[tactic(auto, unfolding(layout::specs::Words::extra_kinds))]
fn extra_size(layout: Layout) -> usize
    ensures { result ≡ extra_size layout }
{
    match layout {
        Layout::Ordinary => 1,
    }
}

// What word q of the head stands for.
pub fn head_kind(layout: Layout, q: usize) -> Kind
    requires { q < head_size layout }
    ensures { result ≡ head_kind layout q }
{
    match q {
        SLACK_PLACE => Kind::Slack,
        _ => match layout {
            Layout::Ordinary => Kind::Idle,
        },
    }
}

// What word k of a task stands for.
pub fn task_kind(layout: Layout, k: usize) -> Kind
    ensures { result ≡ task_kind layout k }
{
    match k {
        0 => Kind::Period,
        CYCLES_IN_TASK => Kind::Cycles,
        FIRST_IN_TASK => Kind::First,
        _ => match layout {
            Layout::Ordinary => Kind::Energy,
        },
    }
}

// The place of a task's period, where q is that of its first release; 0 where q is below 2, at which none stands.
fn own_period(q: usize) -> usize
    ensures { result ≡ q - 2 }
{
    q.saturating_sub(FIRST_IN_TASK)
}

// Whether the word at place q of a list, of this kind, is in its range.
#[tactic(auto, unfolding(layout::specs::Words::allows))]
pub fn is_allowed(s: &[u32], q: usize, k: Kind) -> bool
    requires { q < length s.now }
    ensures { result ≡ allows s.now q k }
{
    let w = s[q] as u64;
    match k {
        Kind::Slack => (1..=1_000).contains(&w),
        Kind::Idle => (0..=1_000).contains(&w),
        Kind::RateCount => (2..=8).contains(&w),
        Kind::Rate => (1..=1_000_000).contains(&w),
        Kind::TaskCount => (1..=32).contains(&w),
        Kind::Period => (1..=10_000_000).contains(&w),
        Kind::Cycles => (1..=4_000_000_000).contains(&w),
        Kind::First => w < s[own_period(q)] as u64,
        Kind::Energy => (1..=MOST_ENERGY).contains(&w),
        Kind::LeftOver => false,
    }
}

// The place of rate number r.
pub fn rate_place(layout: Layout, r: usize) -> usize
    requires { r ≤ most_rates }
    ensures { result ≡ rate_place layout r }
{
    head_size(layout) + r
}

// The place of the task count, behind m rates.
pub fn task_count_place(layout: Layout, m: usize) -> usize
    requires { m < 2 ^ 32 }
    ensures { result ≡ task_count_place layout m }
{
    head_size(layout) + 1 + m
}

// The place of the first task.
pub fn tasks_place(layout: Layout, m: usize) -> usize
    requires { m < 2 ^ 32 }
    ensures { result ≡ tasks_place layout m }
{
    head_size(layout) + 2 + m
}

// The words before a task's energies.
pub fn before_energies(layout: Layout) -> usize
    ensures { result ≡ task_size layout 0 }
{
    2 + extra_size(layout)
}

// The words of one task.
pub fn task_size(layout: Layout, m: usize) -> usize
    requires { m < 2 ^ 32 }
    ensures { result ≡ task_size layout m }
{
    before_energies(layout) + m
}

// The place of task t's first word, its period.
pub fn period_place(layout: Layout, m: usize, t: usize) -> usize
    requires { (m ≤ most_rates) × (t ≤ most_tasks) }
    ensures { result ≡ period_place layout m t }
{
    tasks_place(layout, m) + t * task_size(layout, m)
}

// The place of its cycles.
pub fn cycles_place(layout: Layout, m: usize, t: usize) -> usize
    requires { (m ≤ most_rates) × (t ≤ most_tasks) }
    ensures { result ≡ cycles_place layout m t }
{
    period_place(layout, m, t) + CYCLES_IN_TASK
}

// The place of its first release.
pub fn first_place(layout: Layout, m: usize, t: usize) -> usize
    requires { (m ≤ most_rates) × (t ≤ most_tasks) }
    ensures { result ≡ first_place layout m t }
{
    period_place(layout, m, t) + FIRST_IN_TASK
}

// The place of its energy at rate number r.
pub fn energy_place(layout: Layout, m: usize, t: usize, r: usize) -> usize
    requires { (m ≤ most_rates) × (t ≤ most_tasks) × (r ≤ most_rates) }
    ensures { result ≡ energy_place layout m t r }
{
    period_place(layout, m, t) + (1 + extra_size(layout) + r)
}
