// Document 01's refusal 11: the roots of all spans and of each part of them, or the first span without a tree.
#![tactic(auto)]

pub mod search;
pub mod spans;
