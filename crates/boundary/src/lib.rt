// The state as 32 words, and an answer as one number of 64 bits. It makes no call.
#![tactic(auto)]

pub mod fields;
pub mod words;
