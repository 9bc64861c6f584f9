// Lists of calls and readings as words: the records that a list is made of, the parts of lent runs that arguments lie in, and what is told of each.
#![tactic(auto)]

pub mod outcome;
pub mod part;
pub mod record;
