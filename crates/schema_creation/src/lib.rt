// 'Create schema' on tables that were checked: what it is refused for, and what it writes.
#![tactic(auto)]

pub mod create;
pub mod refuse;
pub mod write;
