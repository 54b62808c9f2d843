// Changes applied to a read set (document 01, "Laws of changes"): it keeps exactly its own offers.
ghost use Rattle.std.specs.Prelude.{◌≡◌};
ghost use Rattle.changes.specs.Lists.{From};
ghost use Rattle.changes.specs.ReadSets.{found_or, over};
ghost use Rattle.changes.specs.Calculus.{find as found};
ghost use Rattle.entry.specs.Word.{offer_of};

use crate::search::find;
use entry::Entry;

// The word of the changes at the word's offer, or the word itself.
fn changed(word: u64, changes: &[u64]) -> u64
    requires { From 0 changes.now }
    ensures { result ≡ found_or (found (offer_of word) changes.now) word }
{
    match find(changes, Entry::offer_of(word)) {
        Some(w) => w,
        None => word,
    }
}

// Applies the changes to the read set in place, at its own offers.
#[tactic(auto, unfolding(changes::specs::ReadSets::over))]
pub fn apply_to_reads(reads: &mut [u64], changes: &[u64])
    requires { From 0 changes.now }
    ensures { reads.new ≡ over reads.old changes.now }
{
    for word in reads.iter_mut() {
        *word = changed(*word, changes);
    }
}
