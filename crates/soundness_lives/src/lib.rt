// 'Sound tables', how lives stand to snapshots and to each other.
#![tactic(auto)]

pub mod lives;
pub mod nesting;
