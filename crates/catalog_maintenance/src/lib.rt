// The public calls that expire snapshots and hand out the files that are due.
#![tactic(auto)]

pub mod clean_up;
pub mod expire;
