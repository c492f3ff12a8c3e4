// Running, once the checks are passed: the run and the lone step over one recorded step.
#![tactic(auto)]

pub mod run;
