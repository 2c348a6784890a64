// The list of words of a task set: its layouts, what stands where, and what each word may be. A word that is added to a
// list stands here, by its kind, and in specs/Words, by its range and its place in a layout. The code that works out a
// place or a kind is left to places, and what is made of a word to the crates above.
#![tactic(auto)]

// What a word of a set's list stands for.
#[derive(Clone, Copy)]
pub enum Kind {
    Slack,
    Idle,
    RateCount,
    Rate,
    TaskCount,
    Period,
    Cycles,
    First,
    Energy,
    LeftOver,
}

// Which list: document 01's own is the ordinary one.
#[derive(Clone, Copy)]
pub enum Layout {
    Ordinary,
}
