// Lists of entry words over slices: their rules, the search for an offer, and changes applied to a read set.
#![tactic(auto)]

pub mod read_sets;
pub mod rules;
pub mod search;
