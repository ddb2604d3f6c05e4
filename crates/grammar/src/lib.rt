#![tactic(auto)]

// The definitions of the rule language (specs/) and the theorems about them (proofs/). There is no code here.
