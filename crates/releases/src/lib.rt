// Release (document 01: drop): a slot closes, and the steps that only it needed go.
#![tactic(auto)]

ghost use Rattle.std.specs.Prelude.{◌≡◌, ◌<◌, OnOk};
ghost use Rattle.answers.specs.Answers.{Checks};
ghost use Rattle.soundness.specs.Facts.{StoreOk};
ghost use Rattle.releases.specs.Release.{release_check, release_head, release_journal};

use answers::call::Reader;
use answers::ground::Ground;
use layout::head::Head;
use slots::{close_slot, slot_check};
use soundness::StoreRef;
use views::trim::trim;

// The first ground on which a release is turned away.
#[tactic(auto, unfolding(answers::specs::First::first))]
fn release_check(store: StoreRef, reader: Reader) -> Result<(), Ground>
    ensures grounds { result ≡ release_check store.entry.table.now store.entry.journal.now store.entry.head.now reader }
    ensures store { OnOk result (StoreOk store.entry.table.now store.entry.journal.now store.entry.head.now) }
    ensures slot { OnOk result (reader.slot < 8) }
{
    store.check()?;
    slot_check(reader)?;
    if !store.head.taken[reader.slot] {
        return Err(Ground::SlotClosed);
    }
    Ok(())
}

// Closes the slot, and takes away the steps that no read needs any more.
pub fn release(
    table: &[u64],
    journal: &mut [u64],
    head: &mut Head,
    reader: Reader,
) -> Result<(), Ground>
    ensures answer { Checks result (release_check table.now journal.old head.old reader) }
    ensures head { head.new ≡ release_head table.now journal.old head.old reader }
    ensures journal { journal.new ≡ release_journal table.now journal.old head.old reader }
{
    let store = StoreRef {
        table,
        journal,
        head,
    };
    release_check(store, reader)?;
    *head = trim(journal, close_slot(*head, reader.slot));
    Ok(())
}
