// Earliest-deadline-first scheduling, tick by tick: the endless walk that demand 3 judges by, the finite walk with its
// counts, the theorem that joins both to the load, and that a stretch between two releases equals its ticks. Definitions
// and theory over any release stream; word lists and energies are left to the crates above.
#![tactic(auto)]
