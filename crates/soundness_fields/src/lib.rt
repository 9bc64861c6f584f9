// 'Sound tables', what each table shows by itself: fields in range, snapshots that rise, ids that ascend.
#![tactic(auto)]

pub mod order;
pub mod ranges;
pub mod snapshots;
