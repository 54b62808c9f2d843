// Issue: a list of kind 0 words is filled from the table, and a slot opens.
#![tactic(auto)]

ghost use Rattle.std.specs.Prelude.{◌≡◌, ◌<◌, OnOk};
ghost use Rattle.answers.specs.Answers.{Checks};
ghost use Rattle.changes.specs.Lists.{has_no_put};
ghost use Rattle.soundness.specs.Facts.{StoreOk};
ghost use Rattle.issues.specs.Issue.{issue_check, issue_head, issue_list};

use answers::call::Reader;
use answers::ground::Ground;
use entry::Entry;
use layout::head::Head;
use lists::read_sets::apply_to_reads;
use lists::rules::is_list;
use slots::callers::long_check;
use slots::{open_slot, slot_check};
use soundness::StoreRef;

// Whether no word is of kind 1.
fn has_no_put(words: &[u64]) -> bool
    ensures { result ≡ has_no_put words.now }
{
    words.iter().all(|&word| Entry::kind_of(word) != Entry::PUT)
}

// The first ground on which an issue is turned away.
#[tactic(auto, unfolding(answers::specs::First::first))]
fn issue_check(store: StoreRef, reader: Reader, list: &[u64]) -> Result<(), Ground>
    ensures grounds { result ≡ issue_check store.entry.table.now store.entry.journal.now store.entry.head.now reader list.now }
    ensures store { OnOk result (StoreOk store.entry.table.now store.entry.journal.now store.entry.head.now) }
    ensures slot { OnOk result (reader.slot < 8) }
{
    store.check()?;
    slot_check(reader)?;
    if store.head.taken[reader.slot] {
        return Err(Ground::SlotTaken);
    }
    if !is_list(list) || !has_no_put(list) {
        return Err(Ground::BadList);
    }
    long_check(reader.caller, list.len())
}

// Fills the list from the used words of the table, and opens the slot.
pub fn issue(
    table: &[u64],
    journal: &[u64],
    head: &mut Head,
    reader: Reader,
    list: &mut [u64],
) -> Result<(), Ground>
    ensures answer { Checks result (issue_check table.now journal.now head.old reader list.old) }
    ensures head { head.new ≡ issue_head table.now journal.now head.old reader list.old }
    ensures list { list.new ≡ issue_list table.now journal.now head.old reader list.old }
{
    let store = StoreRef {
        table,
        journal,
        head,
    };
    issue_check(store, reader, list)?;
    apply_to_reads(list, &table[..head.used]);
    *head = open_slot(*head, reader.slot);
    Ok(())
}
