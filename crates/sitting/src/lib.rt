// What stays at the desk from line to line, where lines come from, and the commands that are about that.
#![tactic(auto)]

pub mod input;
pub mod own;
mod scripts;
pub mod state;
