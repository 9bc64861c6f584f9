// The public calls that insert and delete rows, as commits.
#![tactic(auto)]

pub mod delete;
pub mod insert;
