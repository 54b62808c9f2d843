// Roll back: an earlier state becomes the tip, and the steps above it go.
#![tactic(auto)]

ghost use Rattle.std.specs.Prelude.{◌≡◌, ◌≤◌, length, MatchResult, Ok, Err};
ghost use Rattle.answers.specs.Answers.{Checks};
ghost use Rattle.changes.specs.Runs.{start_of};
ghost use Rattle.rollbacks.specs.RollBack.{kept_of, roll_check, roll_journal, roll_head};

use answers::ground::Ground;
use layout::head::Head;
use layout::states::{end_of, step_index};
use soundness::StoreRef;
use words::clear;

// Where a rollback cuts: how many steps stay, and where they end in the journal.
#[derive(Clone, Copy)]
struct Cut {
    kept: usize,
    end: usize,
}

// Where the steps that lead up to a state end, or the first ground on which a rollback to it is turned away.
#[tactic(auto, using(views::proofs::SoundFacts::inside), unfolding(answers::specs::First::first))]
fn find_cut(store: StoreRef, state: u32) -> Result<Cut, Ground>
    ensures { MatchResult result
        (λ cut. (roll_check store.entry.table.now store.entry.journal.now store.entry.head.now state ≡ Ok tt)
        × (cut.kept ≡ kept_of store.entry.head.now state)
        × (cut.end ≡ start_of store.entry.head.now.ends cut.kept)
        × (cut.kept ≤ 64)
        × (cut.end ≤ length store.entry.journal.now))
        (λ why. roll_check store.entry.table.now store.entry.journal.now store.entry.head.now state ≡ Err why) }
{
    store.check()?;
    store.check_state(state)?;
    let kept = step_index(*store.head, state);
    let end = end_of(&store.head.ends, kept);
    Ok(Cut { kept, end })
}

// Makes the state the tip; the steps above it go.
#[tactic(auto, unfolding(crate::specs::RollBack::cut_to))]
pub fn roll_back(
    table: &[u64],
    journal: &mut [u64],
    head: &mut Head,
    state: u32,
) -> Result<(), Ground>
    ensures answer { Checks result (roll_check table.now journal.old head.old state) }
    ensures head { head.new ≡ roll_head table.now journal.old head.old state }
    ensures journal { journal.new ≡ roll_journal table.now journal.old head.old state }
{
    let store = StoreRef {
        table,
        journal,
        head,
    };
    let cut = find_cut(store, state)?;
    clear(&mut journal[cut.end..]);
    head.ends[cut.kept..].fill(0);
    head.tip = state;
    Ok(())
}
