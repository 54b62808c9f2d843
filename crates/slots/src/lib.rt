// Slots (document 01: reading places) that open and close, and whose they are.
#![tactic(auto)]

pub mod callers;

ghost use Rattle.std.specs.Prelude.{◌≡◌, ◌<◌, true, OnOk};
ghost use Rattle.answers.specs.Answers.{Checks};
ghost use Rattle.answers.specs.First.{first};
ghost use Rattle.slots.specs.Callers.{has_slot};
ghost use Rattle.slots.specs.Slots.{slot_grounds, opened, closed_at};

use crate::callers::has_slot;
use answers::call::Reader;
use answers::ground::Ground;
use layout::head::{Head, SLOTS};

// Whether the slot named is one of a store's, and the caller's. A function and no method, as those of `callers`.
#[tactic(auto, unfolding(answers::specs::First::first))]
pub fn slot_check(reader: Reader) -> Result<(), Ground>
    ensures grounds { Checks result (first (slot_grounds reader)) }
    ensures own { OnOk result ((reader.slot < 8) × (has_slot reader.caller reader.slot ≡ true)) }
{
    if SLOTS <= reader.slot {
        return Err(Ground::SlotRange);
    }
    if !has_slot(reader.caller, reader.slot) {
        return Err(Ground::OthersSlot);
    }
    Ok(())
}

// The head with the slot open at the checkpoint.
#[tactic(auto, unfolding(crate::specs::Slots::opened))]
pub fn open_slot(mut head: Head, slot: usize) -> Head
    requires { slot < 8 }
    ensures { result ≡ opened head slot }
{
    head.taken[slot] = true;
    head.issued[slot] = head.checkpoint;
    head
}

// The head with the slot closed. It comes by value, as `trim` takes it: of one that is changed behind a reference the prover would not know
// at the next call how many marks it has.
#[tactic(auto, unfolding(crate::specs::Slots::closed_at))]
pub fn close_slot(mut head: Head, slot: usize) -> Head
    requires { slot < 8 }
    ensures { result ≡ closed_at head slot }
{
    head.taken[slot] = false;
    head.issued[slot] = 0;
    head
}
