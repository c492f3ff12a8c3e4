// The breaks and watches that stay at the desk: one list of 64 entries at most, and the commands on it.
#![tactic(auto)]

pub mod commands;
pub mod list;
