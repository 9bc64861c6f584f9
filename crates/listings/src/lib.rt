// Readings of schemas, tables and columns, of a table by name and of a snapshot by time, in tables that were checked.
#![tactic(auto)]

pub mod columns;
mod lives;
pub mod named;
pub mod schemas;
pub mod tables;
pub mod time;
