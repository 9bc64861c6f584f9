// Which line of 'Sound tables' the lent tables break.
#![tactic(auto)]

pub mod check;
pub mod checked;
mod each_record;
pub mod line;
mod positions;
mod references;
mod relations;
