// What the calls that a command asked for did, reckoned up and told; which input it was that changed something, and which break or watch stopped a run.
#![tactic(auto)]

pub mod causes;
pub mod deeds;
pub mod findings;
pub mod inputs;
pub mod outcomes;
