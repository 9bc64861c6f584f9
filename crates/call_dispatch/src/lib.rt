// What a record of a list asks for, made on checked tables with the arguments that its spans name.
#![tactic(auto)]

pub mod play;
