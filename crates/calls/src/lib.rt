// What all calls share: the machine, its answers and refusals, the checks that every call makes.
#![tactic(auto)]

pub mod checks;
pub mod state;
