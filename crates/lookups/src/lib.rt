// Lookup: an offer's price, or none, at a named state, and since when.
#![tactic(auto)]

ghost use Rattle.std.specs.Prelude.{◌≡◌, ◌+◌, ◌-◌, ◌≤◌, ◌<◌, OnOk};
ghost use Rattle.changes.specs.Calculus.{find as found, if_put, apply, compose_all};
ghost use Rattle.changes.specs.Lists.{Map};
ghost use Rattle.changes.specs.Runs.{run_of};
ghost use Rattle.answers.specs.Answers.{Gives};
ghost use Rattle.lookups.specs.LookUp.{quote_at, since_of, look_up_check, look_up};
ghost use Rattle.soundness.specs.Facts.{StoreOk};
ghost use Rattle.last_changes.specs.Last.{last_in};
ghost use Rattle.last_changes.specs.Steps.{Rising};

use answers::answer::{Answer, Quote, Since};
use answers::call::LookUp;
use answers::ground::Ground;
use entry::Entry;
use last_changes::last_change;
use layout::states::step_index;
use lists::search::find;
use soundness::StoreRef;

// The first number that is no offer: an offer has 31 bits.
const OFFERS: u32 = 1 << Entry::OFFER_BITS;

// The first ground on which a lookup is turned away.
#[tactic(auto, unfolding(answers::specs::First::first))]
fn look_up_check(store: StoreRef, asked: LookUp) -> Result<(), Ground>
    ensures grounds { result ≡ look_up_check store.entry.table.now store.entry.journal.now store.entry.head.now asked }
    ensures sound { OnOk result (StoreOk store.entry.table.now store.entry.journal.now store.entry.head.now) }
    ensures range { OnOk result ((store.entry.head.now.checkpoint ≤ asked.state) × (asked.state ≤ store.entry.head.now.tip)) }
{
    store.check()?;
    if OFFERS <= asked.offer {
        return Err(Ground::BadList);
    }
    store.check_state(asked.state)
}

// The price that a word puts or shows, with since when; a word of kind 0 has none.
fn quote_of(found: Option<u64>, since: Since) -> Quote
    ensures { result ≡ quote_at (if_put found) since }
{
    let price = match found {
        Some(word) if Entry::kind_of(word) == Entry::PUT => Some(Entry::price_of(word)),
        _ => None,
    };
    Quote { price, since }
}

// The price of an offer after the steps from `from` up to `to`, exclusive, on the map in `base`, and since when; the first of these steps
// leads on from the checkpoint.
fn price_after(
    base: &[u64],
    journal: &[u64],
    ends: &[u16],
    from: usize,
    to: usize,
    checkpoint: u32,
    offer: u32,
) -> Quote
    requires { Map base.now × Rising journal.now ends.now from to × (checkpoint + (to - from) < 4294967296) }
    ensures { result ≡ quote_at
        (found offer (apply base.now (compose_all (run_of journal.now ends.now from (to - from)))))
        (since_of checkpoint (last_in offer (run_of journal.now ends.now from (to - from)))) }
{
    let last = last_change(journal, ends, from, to, offer);
    if let Some((word, steps)) = last {
        let since = Since::State(checkpoint as u64 + steps as u64);
        return quote_of(Some(word), since);
    }
    quote_of(find(base, offer), Since::Table)
}

// The quote of an offer at a state of the store.
pub fn look_up(store: StoreRef, asked: LookUp) -> Result<Answer, Ground>
    ensures { Gives result (look_up store.entry.table.now store.entry.journal.now store.entry.head.now asked) }
{
    look_up_check(store, asked)?;
    let head = store.head;
    let from = step_index(*head, head.checkpoint);
    let to = step_index(*head, asked.state);
    let quote = price_after(
        &store.table[..head.used],
        store.journal,
        &head.ends,
        from,
        to,
        head.checkpoint,
        asked.offer,
    );
    Ok(Answer::Quoted(quote))
}
