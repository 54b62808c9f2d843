// Pricing a batch of orders on a read set (document 01, "Batches").
#![tactic(auto)]

pub mod checking;
pub mod pricing;
