// The public calls for C: what the archive has, and include/gukoremo.h declares. Each is a call of a catalog_* crate, with its promise.
#![tactic(auto)]

pub mod check;
pub mod creates;
pub mod fresh;
pub mod maintenance;
pub mod player;
pub mod reads;
pub mod removes;
pub mod row_changes;
