// The search for an offer in words whose offers rise.
ghost use Rattle.std.specs.Prelude.{◌≡◌, leb};
ghost use Rattle.entry.specs.Word.{bit_of};
ghost use Rattle.changes.specs.Calculus.{find};
ghost use Rattle.changes.specs.Lists.{From};
ghost use Rattle.lists.specs.Positions.{OnlyAt};
ghost use Rattle.lists.specs.Searches.{Finds};

use entry::Entry;

// 1 where an offer is not above another, else 0. A search multiplies by it, so that no iteration of it branches: of the bit of a
// comparison, converted, the compiler makes a branch, and a search takes 2.2 to 2.9 times as long.
fn reaches(there: u32, offer: u32) -> usize
    ensures { result ≡ bit_of (leb there offer) }
{
    (((offer as u64) + (1 << 32) - (there as u64)) >> 32) as usize
}

// The position of the offer, by halving; where the words have no such offer, some position. With `partition_point` or
// `binary_search_by_key` of the library a search takes 2.3 to 3.8 times as long, and an issue of 64 misses its bar of 1.1.
pub fn position(words: &[u64], offer: u32) -> usize
    requires { From 0 words.now }
    ensures { OnlyAt words.now offer result }
{
    let mut low = 0;
    let mut size = words.len();
    while 1 < size {
        let half = size / 2;
        let there = Entry::offer_of(words[low + half]);
        low = low + half * reaches(there, offer);
        size = size - half;
    }
    low
}

// The word at the offer.
pub fn find(words: &[u64], offer: u32) -> Option<u64>
    requires { From 0 words.now }
    ensures { Finds result (find offer words.now) }
{
    let at = position(words, offer);
    if words.len() <= at {
        return None;
    }
    let word = words[at];
    if Entry::offer_of(word) != offer {
        return None;
    }
    Some(word)
}
