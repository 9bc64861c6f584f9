// The public call for whoever must mend tables that the others refuse.
#![tactic(auto)]

pub mod line;
