// The node table of a text whose spans have trees.
#![tactic(auto)]

pub mod build;
pub mod kind;
pub mod node;
