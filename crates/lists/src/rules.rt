// The rules of a list and of a map (document 01, "What the unit holds"): each word passes a test of its own, and offers strictly rise.
ghost use Rattle.std.specs.Prelude.{◌≡◌, true, ◌+◌, ◌-◌, ◌<◌, ◌⊎◌, length, get_or, ℕ, Bool, List};
ghost use Rattle.entry.specs.Word.{is_put, is_valid, bit_of, top_of};
ghost use Rattle.changes.specs.Lists.{is_list, is_map, is_rising};
ghost use Rattle.lists.specs.InOrder.{InOrder, lists, maps};
ghost use Rattle.lists.specs.Pairs.{is_pair, are_pairs, Says};

use entry::Entry;

// The most words that a list given by a caller has.
pub const LIST_WORDS: usize = 64;

// The pairs of neighbours that a block of a list tests, and a block of a map.
const LIST_BLOCK: usize = 16;

const MAP_BLOCK: usize = 32;

// A test of words in turn.
trait Rule {
    // The test of a word alone.
    ghost passes: { ℕ → Bool };

    // The test of all words, of which the first has at least an offer.
    ghost in_order: { ℕ → List ℕ → Bool };

    fn is_passed(word: u64) -> bool
        ensures { result ≡ passes word };

    // The flag of a word that passes and has an offer above that of the word before it. Where the word before does not pass, it says
    // nothing.
    fn follows(before: u64, word: u64) -> u32
        ensures { passes before ≡ true → top_of result ≡ bit_of (is_pair passes before word) };

    ghost laws: { InOrder in_order passes };
}

// The rule of a list: valid words.
struct Listed;

impl Rule for Listed {
    ghost passes = { is_valid };

    ghost in_order = { is_rising };

    fn is_passed(word: u64) -> bool {
        Entry::flag_bit(Entry::valid_flag(word)) == 1
    }

    fn follows(before: u64, word: u64) -> u32 {
        Entry::follows(before, word)
    }

    ghost laws = { lists };
}

// The rule of a map: words of kind 1.
struct Mapped;

impl Rule for Mapped {
    ghost passes = { is_put };

    ghost in_order = { is_map };

    fn is_passed(word: u64) -> bool {
        Entry::is_put(word)
    }

    fn follows(before: u64, word: u64) -> u32 {
        Entry::climbs(before, word)
    }

    ghost laws = { maps };
}

// The flag of four words behind a position that each follow the one before.
fn four_follow<R: Rule>(words: &[u64], from: usize) -> u32
    requires { from + 4 < length words.now }
    ensures { Says R.passes words.now from 4 result }
{
    R::follows(words[from], words[from + 1])
        & R::follows(words[from + 1], words[from + 2])
        & R::follows(words[from + 2], words[from + 3])
        & R::follows(words[from + 3], words[from + 4])
}

// The same of sixteen words.
fn sixteen_follow<R: Rule>(words: &[u64], from: usize) -> u32
    requires { from + 16 < length words.now }
    ensures { Says R.passes words.now from 16 result }
{
    four_follow::<R>(words, from)
        & four_follow::<R>(words, from + 4)
        & four_follow::<R>(words, from + 8)
        & four_follow::<R>(words, from + 12)
}

// The same of a block.
fn block_follows<R: Rule, const BLOCK: usize>(words: &[u64], from: usize) -> u32
    requires { ((BLOCK ≡ 16) ⊎ (BLOCK ≡ 32)) × (from + BLOCK < length words.now) }
    ensures { Says R.passes words.now from BLOCK result }
{
    let good = sixteen_follow::<R>(words, from);
    if BLOCK == 16 {
        return good;
    }
    good & sixteen_follow::<R>(words, from + 16)
}

// Whether each word but the first follows the one before, of words that are too few for a block. It says nothing where the first does
// not pass.
fn few_follow<R: Rule>(words: &[u64]) -> bool
    requires { 0 < length words.now }
    ensures { R.passes (get_or words.now 0 0) ≡ true
        → result ≡ are_pairs R.passes words.now 0 (length words.now - 1) }
{
    let mut good = Entry::FLAG;
    for i in 1..words.len() {
        good &= R::follows(words[i - 1], words[i]);
    }
    Entry::flag_bit(good) == 1
}

// Whether the words are in order. A scan joins the flags of its words and looks at the bit once for a block of many. The last block
// starts early enough to end with the words, so that none is left over; the pairs that it shares with the block before are tested twice.
//
// A block is straight-line code, of which the compiler takes four words at a time: with a `for` over its pairs, one flag for all words
// or a test at each pair (`all`) a scan takes 1.5 to 2.3 times as long on a processor without SSE 4.1, and the test of a store misses
// its bar of 2.5 plain passes.
fn are_in_order<R: Rule, const BLOCK: usize>(words: &[u64]) -> bool
    requires { (BLOCK ≡ 16) ⊎ (BLOCK ≡ 32) }
    ensures { result ≡ R.in_order 0 words.now }
{
    let Some(first) = words.first() else {
        return true;
    };
    if !R::is_passed(*first) {
        return false;
    }
    if words.len() <= BLOCK {
        return few_follow::<R>(words);
    }
    let last = words.len() - 1 - BLOCK;
    for start in (0..words.len() - 1).step_by(BLOCK) {
        let from = start.min(last);
        if Entry::flag_bit(block_follows::<R, BLOCK>(words, from)) == 0 {
            return false;
        }
    }
    true
}

// Whether the words are a list: at most 64, each valid, with strictly rising offers.
pub fn is_list(words: &[u64]) -> bool
    ensures { result ≡ is_list words.now }
{
    words.len() <= LIST_WORDS && are_in_order::<Listed, LIST_BLOCK>(words)
}

// Whether the words are a map: of kind 1, with strictly rising offers.
pub fn is_map(words: &[u64]) -> bool
    ensures { result ≡ is_map 0 words.now }
{
    are_in_order::<Mapped, MAP_BLOCK>(words)
}
