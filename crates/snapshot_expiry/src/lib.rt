// An expiry on tables that were checked: refused, or the tables without what no remaining snapshot shows, and the files that it removed behind those
// scheduled before.
#![tactic(auto)]

pub mod definitions;
pub mod expire;
pub mod files;
