// 'Create table', a commit: the columns that it is given, what it is refused for, what it writes, and the whole on checked tables.
#![tactic(auto)]

pub mod append;
pub mod argument;
pub mod columns;
pub mod create;
pub mod refuse;
pub mod room;
pub mod write;
