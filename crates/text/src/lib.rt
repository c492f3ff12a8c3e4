// Text of instructions: listing a word, assembling a line, and there and back.
#![tactic(auto)]

pub mod assemble;
pub mod list;
pub mod trip;
