// Forward: a read set is brought to a named state, its slot closes, and the steps that only it needed go.
#![tactic(auto)]

ghost use Rattle.std.specs.Prelude.{◌≡◌, ◌<◌, ◌≤◌, false, true, get_or, OnOk};
ghost use Rattle.answers.specs.Answers.{Checks};
ghost use Rattle.soundness.specs.Facts.{StoreOk};
ghost use Rattle.forwards.specs.Forward.{forward_check, forward_head, forward_journal, forward_reads};

use answers::call::Reader;
use answers::ground::Ground;
use last_changes::bring_forward;
use layout::head::Head;
use layout::states::step_index;
use lists::rules::is_list;
use slots::callers::long_check;
use slots::{close_slot, slot_check};
use soundness::StoreRef;
use views::trim::trim;

// The first ground on which a forward is turned away.
#[tactic(auto, unfolding(answers::specs::First::first))]
fn forward_check(store: StoreRef, reader: Reader, state: u32, words: &[u64]) -> Result<(), Ground>
    ensures grounds { result ≡ forward_check store.entry.table.now store.entry.journal.now store.entry.head.now reader state words.now }
    ensures store { OnOk result (StoreOk store.entry.table.now store.entry.journal.now store.entry.head.now) }
    ensures slot { OnOk result ((reader.slot < 8) × (get_or store.entry.head.now.taken reader.slot false ≡ true)) }
    ensures state { OnOk result ((store.entry.head.now.checkpoint ≤ state) × (state ≤ store.entry.head.now.tip)) }
{
    store.check()?;
    slot_check(reader)?;
    if !store.head.taken[reader.slot] {
        return Err(Ground::SlotClosed);
    }
    if !is_list(words) {
        return Err(Ground::BadList);
    }
    long_check(reader.caller, words.len())?;
    store.check_state(state)
}

// Brings the read set from the slot's state to the one named, closes the slot, and takes away the steps that no read needs any more.
pub fn forward(
    table: &[u64],
    journal: &mut [u64],
    head: &mut Head,
    reader: Reader,
    state: u32,
    reads: &mut [u64],
) -> Result<(), Ground>
    ensures answer { Checks result (forward_check table.now journal.old head.old reader state reads.old) }
    ensures head { head.new ≡ forward_head table.now journal.old head.old reader state reads.old }
    ensures journal { journal.new ≡ forward_journal table.now journal.old head.old reader state reads.old }
    ensures reads { reads.new ≡ forward_reads table.now journal.old head.old reader state reads.old }
{
    let store = StoreRef {
        table,
        journal,
        head,
    };
    forward_check(store, reader, state, reads)?;
    let from = step_index(*head, head.issued[reader.slot]);
    let to = step_index(*head, state);
    bring_forward(reads, journal, &head.ends, from, to);
    *head = trim(journal, close_slot(*head, reader.slot));
    Ok(())
}
