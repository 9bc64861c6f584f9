// The records of every table, read and written, a file each. Nothing else knows at which word a field lies.
#![tactic(auto)]

pub mod column;
pub mod data_file;
pub mod delete_file;
pub mod scheduled;
pub mod schema;
pub mod snapshot;
pub mod statistics;
pub mod table;
