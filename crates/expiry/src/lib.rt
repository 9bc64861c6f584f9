// Expiry: its refusals, which records stay, and the tables without those that go.
#![tactic(auto)]

pub mod flag;
pub mod list;
pub mod refuse;
pub mod remaining;
pub mod schedule;
pub mod table;
