// Commit: a list is appended as the state after the tip.
#![tactic(auto)]

ghost use Rattle.std.specs.Prelude.{◌≡◌, ◌≢◌, ◌+◌, ◌≤◌, ◌<◌, length, MatchResult, Ok, Err};
ghost use Rattle.answers.specs.Answers.{Checks};
ghost use Rattle.layout.specs.States.{held_of};
ghost use Rattle.commits.specs.Commit.{used_of, commit_check, commit_journal, commit_head};

use answers::ground::Ground;
use layout::head::{Head, STEPS};
use layout::states::{end_of, held_count};
use lists::rules::is_list;
use soundness::StoreRef;
use words::copy;

// The number that no state follows.
const LAST_STATE: u32 = u32::MAX;

// Where a list goes: behind so many steps, from this word of the journal on.
#[derive(Clone, Copy)]
struct Place {
    held: usize,
    used: usize,
}

// Where the list goes, or the first ground on which a commit is turned away.
#[tactic(auto, using(views::proofs::SoundFacts::inside), unfolding(answers::specs::First::first))]
fn find_place(store: StoreRef, list: &[u64]) -> Result<Place, Ground>
    ensures { MatchResult result
        (λ place. (commit_check store.entry.table.now store.entry.journal.now store.entry.head.now list.now ≡ Ok tt)
        × (place.held ≡ held_of store.entry.head.now)
        × (place.used ≡ used_of store.entry.head.now)
        × (place.held < 64)
        × (store.entry.head.now.tip ≢ 4294967295)
        × (place.used + length list.now ≤ length store.entry.journal.now)
        × (length store.entry.journal.now ≤ 4096))
        (λ why. commit_check store.entry.table.now store.entry.journal.now store.entry.head.now list.now ≡ Err why) }
{
    store.check()?;
    if !is_list(list) {
        return Err(Ground::BadList);
    }
    if store.head.tip == LAST_STATE {
        return Err(Ground::LastState);
    }
    let held = held_count(*store.head);
    if held == STEPS {
        return Err(Ground::StepsFull);
    }
    let used = end_of(&store.head.ends, held);
    if store.journal.len() - used < list.len() {
        return Err(Ground::JournalFull);
    }
    Ok(Place { held, used })
}

// Appends the list as the state after the tip.
#[tactic(auto, unfolding(crate::specs::Commit::with_step))]
pub fn commit(
    table: &[u64],
    journal: &mut [u64],
    head: &mut Head,
    list: &[u64],
) -> Result<(), Ground>
    ensures answer { Checks result (commit_check table.now journal.old head.old list.now) }
    ensures head { head.new ≡ commit_head table.now journal.old head.old list.now }
    ensures journal { journal.new ≡ commit_journal table.now journal.old head.old list.now }
{
    let store = StoreRef {
        table,
        journal,
        head,
    };
    let place = find_place(store, list)?;
    copy(list, &mut journal[place.used..]);
    head.ends[place.held] = (place.used + list.len()) as u16;
    head.tip += 1;
    Ok(())
}
