// The task sets that a seed gives (document 02, note 1): states and draws of a linear congruential generator, the list of
// words that they make, what the generator's call answers, and the theorem that every such list passes checks 2, 3, 10
// and 4. Definitions and theory; the code is left to the crate generator.
#![tactic(auto)]
