// What a C program lends to a call and says of its caller, and what it reads of the answer.
#![tactic(auto)]

pub mod callers;
pub mod codes;
pub mod fit;
pub mod storing;
