// A store with one state and no step.
ghost use Rattle.std.specs.Prelude.{◌≡◌, ◌≤◌, OnOk, length, take, replicate};
ghost use Rattle.answers.specs.Answers.{Checks};
ghost use Rattle.answers.specs.First.{first};
ghost use Rattle.layout.proofs.HeadTests.{InRange};
ghost use Rattle.views.specs.View.{padded};
ghost use Rattle.snapshot.specs.Fresh.{fresh_head};
ghost use Rattle.snapshot.specs.Snapshots.{fresh_grounds};

use answers::ground::Ground;
use layout::clauses::{depth_fits, lengths_fit};
use layout::head::{Head, MARKS, SLOTS};
use words::clear;

// Whether a store can be made in memory of these lengths, with this depth.
#[tactic(auto, using(layout::proofs::HeadTests::lengths_facts), unfolding(answers::specs::First::first))]
pub fn fresh_check(table: usize, journal: usize, depth: u32) -> Result<(), Ground>
    ensures grounds { Checks result (first (fresh_grounds table journal depth)) }
    ensures range { OnOk result (InRange table journal × (depth ≤ 63)) }
{
    if !lengths_fit(table, journal) {
        return Err(Ground::Lengths);
    }
    if !depth_fits(depth) {
        return Err(Ground::TooDeep);
    }
    Ok(())
}

// The head of a store that has one state, no step, no open slot and this depth.
#[tactic(auto, unfolding(crate::specs::Fresh::fresh_head))]
pub fn fresh_head(used: usize, state: u32, depth: u32) -> Head
    ensures { result ≡ fresh_head used state depth }
{
    Head {
        used,
        oldest: state,
        checkpoint: state,
        tip: state,
        taken: [false; SLOTS],
        issued: [0; SLOTS],
        ends: [0; MARKS],
        depth,
    }
}

// Makes a store of the map that stands at the start of the table, in so many words: nothing else is left in table and journal.
pub fn fresh_store(
    table: &mut [u64],
    journal: &mut [u64],
    used: usize,
    state: u32,
    depth: u32,
) -> Head
    requires { used ≤ length table.old }
    ensures { (result ≡ fresh_head used state depth)
        × (table.new ≡ padded (length table.old) (take used table.old))
        × (journal.new ≡ replicate (length journal.old) 0) }
{
    clear(&mut table[used..]);
    clear(journal);
    fresh_head(used, state, depth)
}
