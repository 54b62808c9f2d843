// The head of a store as 85 words, which a C program lends: whether words fit a head, the head that they hold, and a head put into them.
#![tactic(auto)]

ghost use Rattle.std.specs.Prelude.{◌≡◌, ◌<◌, ◌^◌, length};
ghost use Rattle.std.specs.List.{AllZip};
ghost use Rattle.head_words.specs.HeadWords.{number_in, head_of, words_of, are_below, is_head};

use layout::clauses::joined;
use layout::head::Head;
use std::array;

// How many words a head has.
pub const HEAD_WORDS: usize = 85;

// 2^32
const LIMIT: u64 = 4294967296;

// 2^16, above every mark
const MARK_LIMIT: u64 = 65536;

// Whether each of the words is a number of so many bits.
#[tactic(auto, using(crate::proofs::Below::below_joined))]
fn fit(words: &[u64], bits: u32) -> bool
    requires { bits < 64 }
    ensures { result ≡ are_below (2 ^ bits) words.now }
{
    joined(words) < 1 << bits
}

// Whether the words fit the fields of a head.
#[tactic(auto, unfolding(layout::specs::Tests::all_of))]
pub fn is_head(words: &[u64; HEAD_WORDS]) -> bool
    ensures { result ≡ is_head words.now }
{
    fit(&words[1..4], 32)
        && fit(&words[4..12], 1)
        && fit(&words[12..20], 32)
        && fit(&words[20..84], 16)
        && words[84] < LIMIT
}

// A number of 32 bits in a word.
fn number_in(word: u64) -> u32
    ensures { result ≡ number_in word }
{
    (word % LIMIT) as u32
}

// The head that the words hold.
pub fn unpack(words: &[u64; HEAD_WORDS]) -> Head
    ensures { result ≡ head_of words.now }
{
    Head {
        used: words[0] as usize,
        oldest: number_in(words[1]),
        checkpoint: number_in(words[2]),
        tip: number_in(words[3]),
        taken: array::from_fn(|k| words[4 + k] == 1),
        issued: array::from_fn(|k| number_in(words[12 + k])),
        ends: array::from_fn(|k| (words[20 + k] % MARK_LIMIT) as u16),
        depth: number_in(words[84]),
    }
}

// Puts each field into a word of its own.
fn put<T: Copy + Into<u64>>(fields: &[T], words: &mut [u64])
    requires { length fields.now ≡ length words.old }
    ensures { AllZip T.converts fields.now words.new }
{
    for (k, field) in fields.iter().enumerate() {
        words[k] = (*field).into();
    }
}

// Puts a head into its words.
pub fn pack(head: Head, words: &mut [u64; HEAD_WORDS])
    ensures { words.new ≡ words_of head }
{
    words[0] = head.used as u64;
    words[1] = u64::from(head.oldest);
    words[2] = u64::from(head.checkpoint);
    words[3] = u64::from(head.tip);
    put(&head.taken, &mut words[4..12]);
    put(&head.issued, &mut words[12..20]);
    put(&head.ends, &mut words[20..84]);
    words[84] = u64::from(head.depth);
}
