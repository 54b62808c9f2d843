// The clauses of soundness, each by one pass over the lent words that it speaks of.
ghost use Rattle.std.specs.Prelude.{◌≡◌, cond, [], ◌∷◌, ◌-◌, ◌≤◌, min, leb, eqb, length, take, drop};
ghost use Rattle.std.specs.List.{FoldsTo};
ghost use Rattle.changes.specs.Lists.{is_list};
ghost use Rattle.layout.specs.Clauses.{are_lengths, is_table, are_numbers, is_step, is_journal, are_slots, is_depth};
ghost use Rattle.layout.specs.Tests.{all_below, all_of, are_zeros, least};

use crate::head::{JOURNAL_WORDS, MOST_DEPTH, SLOTS, STEPS, TABLE_WORDS};
use crate::states::end_of;
use lists::rules::{is_list, is_map};
use std::ops::BitOr;

// Whether the lengths lent are in their ranges.
#[tactic(auto, unfolding(crate::specs::Tests::all_of))]
pub fn lengths_fit(table: usize, journal: usize) -> bool
    ensures { result ≡ are_lengths table journal }
{
    (1..=TABLE_WORDS).contains(&table) && (1..=JOURNAL_WORDS).contains(&journal)
}

// The words joined by `|`, so that the compiler can take several of them in an iteration.
pub fn joined<W: Copy + Default + BitOr<Output = W>>(words: &[W]) -> W
    requires { (a b : W) → W.can_bitor a b }
    ensures { (first : W) × W.is_default first × FoldsTo W.bitor_gives first words.now result }
{
    let mut seen = W::default();
    for word in words {
        seen = seen | *word;
    }
    seen
}

// Whether all words are zero.
#[tactic(auto, using(crate::proofs::WordTests::zeros_joined))]
pub fn is_zero(words: &[u64]) -> bool
    ensures { result ≡ are_zeros words.now }
{
    joined(words) == 0
}

#[tactic(auto, unfolding(crate::specs::Tests::all_of))]
pub fn is_table(table: &[u64], used: usize) -> bool
    ensures { result ≡ is_table table.now used }
{
    used <= table.len() && is_map(&table[..used]) && is_zero(&table[used..])
}

#[tactic(auto, unfolding(crate::specs::Tests::all_of))]
pub fn numbers_fit(oldest: u32, checkpoint: u32, tip: u32) -> bool
    ensures { result ≡ are_numbers oldest checkpoint tip }
{
    oldest <= checkpoint && checkpoint <= tip && (tip - oldest) as usize <= STEPS
}

// Whether a step that lies from start to end in the journal is a list.
#[tactic(auto, unfolding(crate::specs::Tests::all_of))]
fn is_step(journal: &[u64], start: usize, end: usize) -> bool
    ensures { result ≡ all_of
        (leb start end ∷ leb end (length journal.now) ∷ is_list (take (end - start) (drop start journal.now)) ∷ []) }
{
    start <= end && end <= journal.len() && is_list(&journal[start..end])
}

// Whether each of the first n marks ends a list in the journal.
fn are_steps(journal: &[u64], ends: &[u16], n: usize) -> bool
    requires { n ≤ length ends.now }
    ensures { result ≡ all_below n (is_step journal.now ends.now) }
{
    let mut start = 0;
    for end in &ends[..n] {
        let end = usize::from(*end);
        if !is_step(journal, start, end) {
            return false;
        }
        start = end;
    }
    true
}

// Whether no mark from the n-th on is in use.
#[tactic(auto, using(crate::proofs::WordTests::zeros_joined_from))]
fn are_unused(ends: &[u16], n: usize) -> bool
    requires { n ≤ length ends.now }
    ensures { result ≡ are_zeros (drop n ends.now) }
{
    joined(&ends[n..]) == 0
}

fn slot_fits(is_open: bool, number: u32, checkpoint: u32) -> bool
    ensures { result ≡ cond is_open (leb number checkpoint) (eqb number 0) }
{
    if is_open {
        number <= checkpoint
    } else {
        number == 0
    }
}

pub fn slots_fit(checkpoint: u32, taken: [bool; SLOTS], issued: [u32; SLOTS]) -> bool
    ensures { result ≡ are_slots checkpoint taken issued }
{
    (0..SLOTS).all(|k| slot_fits(taken[k], issued[k], checkpoint))
}

// The least of the checkpoint and the numbers of the open slots.
#[tactic(auto, using(crate::proofs::WordTests::least_open, crate::proofs::WordTests::least_closed))]
pub fn least_of(checkpoint: u32, taken: [bool; SLOTS], issued: [u32; SLOTS]) -> u32
    ensures { result ≡ least checkpoint taken issued }
{
    let mut least = checkpoint;
    for (is_open, number) in taken.iter().zip(&issued) {
        if *is_open {
            least = least.min(*number);
        }
    }
    least
}

// Whether a store can have this depth.
pub fn depth_fits(depth: u32) -> bool
    ensures { result ≡ is_depth depth }
{
    depth <= MOST_DEPTH
}

// Whether the journal holds the first n steps of the marks and zeros behind, and no other mark is in use.
#[tactic(auto, using(crate::proofs::StepTests::steps_inside), unfolding(crate::specs::Tests::all_of))]
pub fn is_journal(journal: &[u64], ends: &[u16], n: usize) -> bool
    requires { n ≤ length ends.now }
    ensures { result ≡ is_journal journal.now ends.now n }
{
    are_steps(journal, ends, n) && is_zero(&journal[end_of(ends, n)..]) && are_unused(ends, n)
}
