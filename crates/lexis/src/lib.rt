// Numbers as a person writes them.
#![tactic(auto)]

pub mod numbers;
