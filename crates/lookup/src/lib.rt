// Lives, and records found by id. That tables are sorted, and by what, is known to this crate alone.
#![tactic(auto)]

pub mod block;
pub mod deletion;
pub mod find;
pub mod life;
pub mod live;
pub mod places;
pub mod positions;
