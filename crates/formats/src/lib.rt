// A map and its state number as bytes, in one of two formats: the image (document 01), and the row sheet (document 02, Q-5).
//
// The set of formats is closed, and theorems speak of a format as a value, so that it is an enum with `match`, and no trait with a type for
// each. The functions are no methods of it: `Format` is of the crate `answers`, which knows of no bytes.
#![tactic(auto)]

pub mod reading;
pub mod writing;
