// The orders of a batch executed in turn on a read set (document 01, "Batches"): where their offers stand in it, and the execution.
#![tactic(auto)]

pub mod executing;
pub mod positions;
