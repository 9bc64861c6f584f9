// The reading that a record of a list stands for, made on checked tables.
#![tactic(auto)]

pub mod read;
