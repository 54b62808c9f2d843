// What lies in a store's lent memory: the head, where the held steps stand, and the clauses of which soundness is made
// (document 01, "What the unit holds").
#![tactic(auto)]

pub mod clauses;
pub mod head;
pub mod states;
