// Bytes and words: their halves, sums modulo 65,536, bits, and their reading as signed numbers.
#![tactic(auto)]

pub mod bits;
pub mod choice;
pub mod halves;
pub mod signed;
pub mod sums;
