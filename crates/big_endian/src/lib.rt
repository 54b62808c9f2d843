// Numbers in bytes that the caller lends, "all most significant byte first" (document 01, "Image and listing").
#![tactic(auto)]

pub mod numbers;
