// The lent tables of document 01: number types, records, column types, counts and outcomes, with the limits; how ids and UUIDs compare; the numbers of changes
// and of refusals.
#![tactic(auto)]

pub mod kind;
pub mod number;
pub mod outcome;
pub mod record;
pub mod refusal;
pub mod tables;
pub mod value;
