// Changes applied to a map, and the map written to a table.
#![tactic(auto)]

ghost use Rattle.std.specs.Prelude.{true, false, ◌≡◌, ◌++◌, ◌+◌, ◌-◌, ◌≤◌, max, length, drop, replicate};
ghost use Rattle.entry.specs.Word.{Put};
ghost use Rattle.changes.specs.Calculus.{side_of, by_side, apply as applied};
ghost use Rattle.changes.specs.Lists.{All};

use entry::Entry;
use words::{clear, copy};

// Whether there is a word at a position, and its offer lies below a word's.
fn is_below(words: &[u64], at: usize, word: u64) -> bool
    ensures { result ≡ by_side (side_of (drop at words.now) word) true false false }
{
    at < words.len() && Entry::offer_field(words[at]) < Entry::offer_field(word)
}

// Whether there is a word at a position, and its offer is a word's.
fn found_at(words: &[u64], at: usize, word: u64) -> bool
    ensures { result ≡ by_side (side_of (drop at words.now) word) false true false }
{
    at < words.len() && Entry::offer_field(words[at]) == Entry::offer_field(word)
}

// Writes the map after the changes to the start of `out`, and gives its length; the words behind it stay. One merge
// passes both, and nothing of the map itself changes.
pub fn apply(map: &[u64], changes: &[u64], out: &mut [u64]) -> usize
    requires { All Put map.now × (length map.now + length changes.now ≤ length out.old) }
    ensures { (result ≡ length (applied map.now changes.now))
        × (out.new ≡ applied map.now changes.now ++ drop result out.old) }
{
    let mut i = 0;
    let mut k = 0;
    for change in changes {
        while is_below(map, i, *change) {
            out[k] = map[i];
            k += 1;
            i += 1;
        }
        i += usize::from(found_at(map, i, *change));
        if Entry::is_put(*change) {
            out[k] = *change;
            k += 1;
        }
    }
    copy(&map[i..], &mut out[k..]);
    k + (map.len() - i)
}

// Writes a map to the start of a table, of which so many words are used. The words no longer used become zero, and
// those behind stay.
pub fn replace(table: &mut [u64], used: usize, map: &[u64])
    requires { (used ≤ length table.old) × (length map.now ≤ length table.old) }
    ensures { table.new ≡ map.now ++ replicate (used - length map.now) 0
        ++ drop (max used (length map.now)) table.old }
{
    copy(map, table);
    let size = map.len();
    if size < used {
        clear(&mut table[size..used]);
    }
}
