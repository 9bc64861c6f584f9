// 'Drop schema' and 'drop table' on tables that were checked: what they are refused for, and what they write.
#![tactic(auto)]

pub mod drop;
pub mod refuse;
pub mod write;
