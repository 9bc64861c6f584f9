// What readings are made of: the refusals of one that names a table, and an answer that has room or has not.
#![tactic(auto)]

pub mod answer;
pub mod table;
