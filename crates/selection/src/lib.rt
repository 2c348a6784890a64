// Which plan document 01 selects: the choice at a unit, the unit rule, and their theory (one plan and one unit, the
// bounds on the energy, the table that finds the plan). Over tasks with a load and an energy at each rate; word lists,
// periods and the walk are left to the crates above.
#![tactic(auto)]
