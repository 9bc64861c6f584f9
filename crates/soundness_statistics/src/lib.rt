// 'Sound tables', the statistics of files, and how many columns a table has.
#![tactic(auto)]

pub mod columns;
pub mod fit;
pub mod statistics;
