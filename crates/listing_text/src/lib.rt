// The text of the listing (document 01, "Image and listing"): the map of a state, line by line, in bytes that the
// caller lends.
#![tactic(auto)]

pub mod listing;
pub mod text;
