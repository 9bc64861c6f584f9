// A file's record, itself and copied.
#![tactic(auto)]

pub mod copy;
pub mod find;
