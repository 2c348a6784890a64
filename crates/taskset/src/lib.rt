// What a task set comes to and what each call answers. Here are the types of the answers, and which engine a call
// that plans goes by; specs/ defines what document
// 01 says of each, proofs/ has the theory. What stands where in a set's list is left to the crate layout, all code, the
// checks among it, to the crates above.
#![tactic(auto)]

use layout::Layout;

// What a call that plans goes by: the table of least loads, for a list of a layout; or all plans, one by one, for the
// ordinary list (document 02, note 7).
#[derive(Clone, Copy)]
pub enum Engine {
    Table(Layout),
    Exhaustive,
}

// Why a call declines: a case for each row of document 01's table, numbers 1 to 8 in this order, and then for those of
// document 02's notes, with what is returned beside the number.
#[derive(Clone, Copy)]
pub enum Refusal {
    // The text departs from the form: offset.
    TextDeparts(usize),
    // A set word out of its range, missing or left over: place.
    BadWord(usize),
    // A rate not above the one before it: place.
    NotAbove(usize),
    // The hyper-period over the limit: place of the period.
    TooLong(usize),
    // Working list too short: words needed.
    WorkShort(usize),
    // Receiving list or buffer too short: words or bytes needed.
    TooShort(usize),
    // No plan fits.
    NoPlan,
    // The walk's plan: the lowest of three numbers.
    BadPlan(usize),
    // An energy worked out by a chip's tables over the largest: task number.
    EnergyOver(usize),
    // An energy below what idle ticks draw in the job's time: place.
    BelowIdle(usize),
    // More plans than the dull engine goes through.
    TooManyPlans,
}

// What a list holds that passes the checks of its words: how many rates, and how many tasks.
#[derive(Clone, Copy)]
pub struct Counts {
    pub rates: usize,
    pub tasks: usize,
}

// What checks answer that do not look at periods.
pub type Shape = Result<Counts, Refusal>;

// What a set holds that passes check 4 too: its hyper-period beside the counts.
#[derive(Clone, Copy)]
pub struct Measured {
    pub rates: usize,
    pub tasks: usize,
    pub hyper: u64,
}

// What checks answer with check 4 among them.
pub type Checked = Result<Measured, Refusal>;

// What a plan that was given comes to.
#[derive(Clone, Copy)]
pub struct Planned {
    pub unit: u64,
    pub load: u64,
    pub hyper: u64,
    pub energy: u64,
}

// What a call that plans answers.
pub type PlannerAnswer = Result<Planned, Refusal>;

// How a walk ends: kept, with its busy ticks, idle ticks and preemptions; or missed, at a tick by a task's number.
#[derive(Clone, Copy)]
pub enum WalkEnd {
    Kept {
        busy: u64,
        idle: u64,
        preempted: u64,
    },
    Missed {
        tick: u64,
        task: u64,
    },
}

// What the walk answers.
pub type WalkAnswer = Result<WalkEnd, Refusal>;

// What the reader and the writer answer: how many words or bytes they wrote.
pub type CopyAnswer = Result<usize, Refusal>;
