// Texts in hexadecimal, one to a line.
#![tactic(auto)]

pub mod lines;
