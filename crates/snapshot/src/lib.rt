// The calls that make a store of nothing, or of an image or a sheet (document 01, "Image and listing"; document 02, Q-5): clear and
// load.
#![tactic(auto)]

pub mod clear;
pub mod fresh;
pub mod load;
