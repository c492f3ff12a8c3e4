// What the processor stands on: its state with the device registers, and what an address reads and writes.
#![tactic(auto)]

pub mod address;
pub mod state;
