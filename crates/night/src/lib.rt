// What a night at the pen bench writes: a line for each pen, how far it is, and what it came to.
#![tactic(auto)]

pub mod lines;
pub mod notes;
pub mod progress;
pub mod totals;
