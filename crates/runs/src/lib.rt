// Functions over runs of words and bytes that know no DuckLake: records have a size, and a word has a place in them. What the words at one place of every
// record tell; records, or places of bytes, of which some stay: gaps close, order stays, freed places become 0.
#![tactic(auto)]

pub mod fields;
pub mod flags;
pub mod hints;
pub mod kept;
pub mod probes;
pub mod subset;
pub mod update;
pub mod words;
