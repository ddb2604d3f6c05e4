// Bytes to tokens: document 01's section "Tokens" and refusals 2 to 5.
#![tactic(auto)]

pub mod classes;
pub mod fronts;
pub mod runs;
pub mod scan;
