// Whether tables have what calls keep beyond soundness (R15).
#![tactic(auto)]

pub mod chained;
