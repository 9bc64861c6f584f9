// Text in a lent run of bytes, and the paths of files in it.
#![tactic(auto)]

pub mod path;
pub mod text;
