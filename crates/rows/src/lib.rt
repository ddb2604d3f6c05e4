// Rows: of each token of a text, in order, what it is, its roles in force, and its operands. Each row is written by one stage.
#![tactic(auto)]

pub mod below;
pub mod class;
pub mod fixity;
pub mod in_use;
pub mod operands;
pub mod role;
pub mod roles;
pub mod token;
