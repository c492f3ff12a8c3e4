// What a person sees of the machine: its registers, flags and devices, memory, code, what a command changed, why a call was refused.
#![tactic(auto)]

pub mod changes;
pub mod code;
pub mod dumps;
pub mod parts;
pub mod protection;
pub mod refusals;
pub mod registers;
pub mod status;
pub mod view;
