// The public readings: schemas, tables, columns, snapshots, files, rows and a file's record, on any content of the runs, any counts, any arguments.
#![tactic(auto)]

pub mod columns;
pub mod file;
pub mod files;
pub mod filtered;
pub mod named;
pub mod rows;
pub mod schemas;
pub mod tables;
pub mod time;
