// The public calls that create a schema and a table, as commits.
#![tactic(auto)]

pub mod create_schema;
pub mod create_table;
