// The rows of a table at a snapshot: of each file the positions that are not deleted, by their row numbers.
#![tactic(auto)]

pub mod rows;
