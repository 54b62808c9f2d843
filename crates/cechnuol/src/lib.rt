// The unit for C programs, which the crate `cechnuol_c` exports: one function for each call, with the prefix `cechnuol_`. The head and the
// tally are lent as arrays of words, whose lengths are facts of their types (include/cechnuol.h has their layout).
#![tactic(auto)]

mod memory;
pub mod pricing;
pub mod store;
pub mod version;
