// The calls that add, take back and flush steps (document 01, "Laws of changes"), seen on views: what commit, rollback
// and flush make of the view of a store. Definitions and theorems only; the code stands in `commits`, `rollbacks` and
// `flushes`.
#![tactic(auto)]
