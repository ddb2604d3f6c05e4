// One declaration of a block, or the first token that does not fit: for document 01's refusal 8.
#![tactic(auto)]

pub mod parse;
pub mod walk;
