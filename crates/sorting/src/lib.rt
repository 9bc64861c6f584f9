// Keys of several words, in no order: the places of records sorted by their keys, and whether two records have one key. No content takes more
// than n log n steps, and keys that ascend take one pass.
#![tactic(auto)]

pub mod colliding;
pub mod distinct;
mod exchange;
pub mod keys;
pub mod sort;
