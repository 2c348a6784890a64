// The bracketed text of a task set: what a text means, which texts are well formed, and where another departs. Only
// definitions and theorems; the code that reads and writes stands in the crates above.
#![tactic(auto)]
