// What each legal instruction does that touches registers, flags and CSRs alone, on lent registers and CSRs.
// An operand byte has the destination in its upper and the source in its lower four bits.
#![tactic(auto)]

pub mod arithmetic;
pub mod moving;
