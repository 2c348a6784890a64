// The entries for C, as definitions: what each returns and leaves in the lists lent to it, over words and bytes, with
// the theorems that two answers are one, and that both engines' entries agree. Their code is left to capi.
#![tactic(auto)]
