// What each legal instruction does that loads or stores, on lent registers and bytes.
// An operand byte has the destination in its upper and the source in its lower four bits.
#![tactic(auto)]

pub mod loading;
pub mod storing;
