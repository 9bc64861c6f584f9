// The diary session of document 01 as definitions: its calls, the text that the program prints, and that this is the three lines. No function stands here.
#![tactic(auto)]

// The id of the table `diary`, and those of its columns.
pub const DIARY: u64 = 1;

pub const ITEM: u64 = 1;

pub const PRICE: u64 = 2;
