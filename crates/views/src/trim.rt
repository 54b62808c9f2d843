// The steps below the floor go (document 01, "Laws of changes"), after a flush, a forward or a release.
ghost use Rattle.std.specs.Prelude.{◌≡◌, ℕ, ◌-◌, ◌≤◌, ◌<◌, get_or};
ghost use Rattle.views.specs.Trim.{moved_ends, trimmed_head, trimmed_journal, Trimmable};

use layout::clauses::least_of;
use layout::head::{Head, MARKS};
use layout::states::{end_of, held_count, step_index};
use words::{clear, shift};

// The marks from a step up to another, exclusive, moved to the start and down by a count of words.
fn move_ends(ends: [u16; MARKS], from: usize, to: usize, words: usize) -> [u16; MARKS]
    requires { (from ≤ to) × (to ≤ 64) × ((i : ℕ) → from ≤ i → i < to → words ≤ get_or ends i 0) }
    ensures { result ≡ moved_ends ends from to words }
{
    let mut moved = [0; MARKS];
    for (k, end) in ends[from..to].iter().enumerate() {
        moved[k] = (usize::from(*end) - words) as u16;
    }
    moved
}

// Works out the floor anew, takes away the steps below it and moves the rest to the start of the journal; the
// freed words are zero.
pub fn trim(journal: &mut [u64], head: Head) -> Head
    requires { Trimmable journal.old head }
    ensures { (result ≡ trimmed_head head) × (journal.new ≡ trimmed_journal head journal.old) }
{
    let oldest = least_of(head.checkpoint, head.taken, head.issued);
    let gone = step_index(head, oldest);
    let words = end_of(&head.ends, gone);
    let kept = journal.len() - words;
    shift(journal, words, 0);
    clear(&mut journal[kept..]);
    Head {
        oldest,
        ends: move_ends(head.ends, gone, held_count(head), words),
        ..head
    }
}
