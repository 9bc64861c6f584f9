// What the commits share. What they are refused for, each refusal a function: numbers, time, names, an empty schema, UUIDs. What they write: a snapshot and
// named records behind those in use, ends of open records.
#![tactic(auto)]

pub mod append;
pub mod end;
pub mod name;
pub mod number;
pub mod schema;
pub mod time;
pub mod uuid;
