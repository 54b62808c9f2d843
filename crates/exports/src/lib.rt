// Writing a state, as an image or a sheet: any from the checkpoint to the tip.
#![tactic(auto)]

pub mod write;
