// The files of a table at a snapshot, each with its delete file, and those that a filter keeps: read by one pass over the data files and one over the
// delete files.
#![tactic(auto)]

pub mod deletions;
pub mod files;
pub mod filter;
pub mod filtered;
