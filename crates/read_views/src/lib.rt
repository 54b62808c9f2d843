// Reading a store (document 01, "Laws of changes"), seen on views: what a lookup and an issue read from the view of a
// store, and what issue, forward and release make of it. Definitions and theorems only; the code stands in `lookups`,
// `issues`, `forwards` and `releases`.
#![tactic(auto)]
