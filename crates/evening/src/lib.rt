// What the pen bench is started with: its arguments, and the files that they name.
#![tactic(auto)]

pub mod arguments;
pub mod files;
pub mod firmware;
pub mod given;
