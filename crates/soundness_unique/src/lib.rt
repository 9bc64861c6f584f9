// 'Sound tables', what may not occur twice: file ids and UUIDs; names and orders of records that share a live number.
#![tactic(auto)]

mod distinct;
pub mod files;
mod left;
pub mod naming;
