// The three conditions of the request, as promises that the prover holds this crate to. What each says stands in its file of specs:
// Condition1.antt, Condition2.antt, Condition3.antt.
#![tactic(auto)]

ghost use Rattle.conditions.specs.Condition1.{Condition1};
ghost use Rattle.conditions.specs.Condition2.{Condition2};
ghost use Rattle.conditions.specs.Condition3.{Condition3};

// The three conditions hold.
pub fn hold()
    ensures { Condition1 × Condition2 × Condition3 }
{}
