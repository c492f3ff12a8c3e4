// Names as numbers, and the registers and CSRs that have names.
#![tactic(auto)]

pub mod keys;
pub mod register;
