// The calculus of changes (document 01, "Laws of changes"; sections 6 and 7 of document 000): its definitions and laws,
// and the answers that they share with the code over slices in the crates above.
#![tactic(auto)]
