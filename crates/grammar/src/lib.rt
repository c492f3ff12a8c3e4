// The grammar of an instruction's line.
#![tactic(auto)]

pub mod line;
