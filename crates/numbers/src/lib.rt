// Whole-number arithmetic for clock-rate plans: rounded-up division, sums over tasks, common divisors and multiples,
// powers of two. specs/ defines each once, and proofs/ has its laws. The code that works one out is left to arithmetic;
// tasks, words and times to the crates above.
#![tactic(auto)]
