// Plays lists of calls and readings.
#![tactic(auto)]

pub mod judge;
pub mod session;
