// The public call that begins a catalogue.
#![tactic(auto)]

pub mod fresh;
pub mod start;
