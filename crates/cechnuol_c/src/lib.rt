// The unit as a static library for C programs: one function for each call, with the prefix `cechnuol_`. Each passes what it is lent to
// the function of the crate `cechnuol` that has its name, and has its clauses. The head and the tally are lent as arrays of words, whose
// lengths are facts of their types (include/cechnuol.h has their layout): C passes a pointer for each, and for a slice a pointer and
// then its length.
#![tactic(auto)]

pub mod pricing;
pub mod store;
pub mod version;
