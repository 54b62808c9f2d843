// The last change of an offer among some steps of the journal, and a read set brought forward by the last changes of its
// offers.
#![tactic(auto)]

pub mod filter;

ghost use Rattle.std.specs.Prelude.{◌≡◌, ◌+◌, ◌-◌};
ghost use Rattle.entry.specs.Word.{offer_of};
ghost use Rattle.changes.specs.Calculus.{find as found, compose_all};
ghost use Rattle.changes.specs.Lists.{From};
ghost use Rattle.changes.specs.ReadSets.{found_or, over};
ghost use Rattle.changes.specs.Runs.{step_of, run_of, Marked};
ghost use Rattle.lists.specs.Searches.{Finds};
ghost use Rattle.last_changes.specs.Filter.{Noted};
ghost use Rattle.last_changes.specs.Last.{last_in, word_in, LastIs};
ghost use Rattle.last_changes.specs.Steps.{Rising};

use crate::filter::{CELLS, filter_cell, note_offers};
use entry::Entry;
use layout::states::end_of;
use lists::search::find;

// The searches up to which a read set is brought forward without a filter. Measured: up to 16 are quicker than a filter of CELLS
// cells, whatever the steps hold, and 32 are not always.
const FEW_SEARCHES: usize = 16;

// The word of one step at the offer.
fn find_in_step(journal: &[u64], ends: &[u16], step: usize, offer: u32) -> Option<u64>
    requires { Marked journal.now ends.now (step + 1) × From 0 (step_of journal.now ends.now step) }
    ensures { result ≡ found offer (step_of journal.now ends.now step) }
{
    let start = end_of(ends, step);
    let end = end_of(ends, step + 1);
    find(&journal[start..end], offer)
}

// The last change of the offer among the steps from `from` up to `to`, exclusive, sought from the newest back: its word, and how many of
// the steps lead up to it, its own included.
pub fn last_change(
    journal: &[u64],
    ends: &[u16],
    from: usize,
    to: usize,
    offer: u32,
) -> Option<(u64, usize)>
    requires { Rising journal.now ends.now from to }
    ensures { Finds (word_in result) (found offer (compose_all (run_of journal.now ends.now from (to - from))))
        × LastIs result (last_in offer (run_of journal.now ends.now from (to - from))) }
{
    for step in (from..to).rev() {
        let found = find_in_step(journal, ends, step, offer);
        if let Some(word) = found {
            return Some((word, step + 1 - from));
        }
    }
    None
}

// The last change of the word's offer among the steps, or the word itself.
fn changed_word(word: u64, journal: &[u64], ends: &[u16], from: usize, to: usize) -> u64
    requires { Rising journal.now ends.now from to }
    ensures { result ≡ found_or
        (found (offer_of word) (compose_all (run_of journal.now ends.now from (to - from)))) word }
{
    match last_change(journal, ends, from, to, Entry::offer_of(word)) {
        Some((later, _)) => later,
        None => word,
    }
}

// The same with a filter: no change is sought where it shows that there is none.
fn word_after(
    word: u64,
    filter: &[bool],
    journal: &[u64],
    ends: &[u16],
    from: usize,
    to: usize,
) -> u64
    requires { Rising journal.now ends.now from to × Noted filter.now journal.now ends.now from to }
    ensures { result ≡ found_or
        (found (offer_of word) (compose_all (run_of journal.now ends.now from (to - from)))) word }
{
    if !filter[filter_cell(word)] {
        return word;
    }
    changed_word(word, journal, ends, from, to)
}

// Applies the steps to the read set at its own offers, with a filter in which their words are noted.
fn words_after(
    words: &mut [u64],
    filter: &[bool],
    journal: &[u64],
    ends: &[u16],
    from: usize,
    to: usize,
)
    requires { Rising journal.now ends.now from to × Noted filter.now journal.now ends.now from to }
    ensures { words.new
        ≡ over words.old (compose_all (run_of journal.now ends.now from (to - from))) }
{
    for word in words.iter_mut() {
        *word = word_after(*word, filter, journal, ends, from, to);
    }
}

// Applies the steps to the read set at its own offers, for many searches: a filter spares most of them.
fn bring_many(words: &mut [u64], journal: &[u64], ends: &[u16], from: usize, to: usize)
    requires { Rising journal.now ends.now from to }
    ensures { words.new
        ≡ over words.old (compose_all (run_of journal.now ends.now from (to - from))) }
{
    let start = end_of(ends, from);
    let end = end_of(ends, to);
    let mut filter = [false; CELLS];
    note_offers(&journal[start..end], &mut filter);
    words_after(words, &filter, journal, ends, from, to);
}

// The same for few searches, which cost less than a filter.
fn bring_few(words: &mut [u64], journal: &[u64], ends: &[u16], from: usize, to: usize)
    requires { Rising journal.now ends.now from to }
    ensures { words.new
        ≡ over words.old (compose_all (run_of journal.now ends.now from (to - from))) }
{
    for word in words.iter_mut() {
        *word = changed_word(*word, journal, ends, from, to);
    }
}

// Whether so many words are sought in so many steps by few searches.
fn are_few(words: usize, steps: usize) -> bool {
    if FEW_SEARCHES < words {
        return false;
    }
    if FEW_SEARCHES < steps {
        return false;
    }
    words * steps <= FEW_SEARCHES
}

// Applies the steps from `from` up to `to`, exclusive, to the read set at its own offers.
pub fn bring_forward(words: &mut [u64], journal: &[u64], ends: &[u16], from: usize, to: usize)
    requires { Rising journal.now ends.now from to }
    ensures { words.new
        ≡ over words.old (compose_all (run_of journal.now ends.now from (to - from))) }
{
    if are_few(words.len(), to - from) {
        bring_few(words, journal, ends, from, to);
        return;
    }
    bring_many(words, journal, ends, from, to);
}
