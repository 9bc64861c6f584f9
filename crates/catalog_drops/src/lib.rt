// The public calls that drop schemas and tables, as commits.
#![tactic(auto)]

pub mod drop_schema;
pub mod drop_table;
