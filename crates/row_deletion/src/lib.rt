// Rows deleted: the positions of a delete, what it is refused for, what it adds, and what it writes.
#![tactic(auto)]

pub mod append;
pub mod delete;
pub mod deleted;
pub mod file;
pub mod merge;
pub mod place;
pub mod positions;
pub mod refuse;
pub mod write;
