// The unit: every call on a store, with the tally of the steps.
#![tactic(auto)]

pub mod direct;
pub mod serve;
