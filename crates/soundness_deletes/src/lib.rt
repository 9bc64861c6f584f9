// 'Sound tables', deleted positions and row ranges.
#![tactic(auto)]

pub mod deletes;
pub mod rows;
