// Cleanup on tables that were checked: refused, or of the scheduled records those that are due are handed out and removed.
#![tactic(auto)]

pub mod clean;
pub mod due;
pub mod refuse;
