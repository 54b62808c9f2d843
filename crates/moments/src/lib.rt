// Document 01's twelve moments at the counter: one table, and one proof over it. Definitions and a theorem only; there is no code.
#![tactic(auto)]
