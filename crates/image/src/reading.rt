// An image tested and read.
ghost use Rattle.std.specs.Prelude.{◌≡◌, ◌++◌, ◌+◌, ◌*◌, ◌^◌, ◌<◌, ◌≤◌, length, take, drop};
ghost use Rattle.big_endian.specs.Bytes.{value_of};
ghost use Rattle.image.specs.Image.{count_in, words_in, is_image};

use crate::{HEADER_BYTES, WORD_BYTES};
use big_endian::numbers::uint_at;
use entry::Entry;

// The count of an image's words. The bytes have its header.
#[tactic(auto, unfolding(crate::specs::Image::count_in))]
pub fn count_of(bytes: &[u8]) -> usize
    requires { 6 ≤ length bytes.now }
    ensures { (result ≡ count_in bytes.now) × (result < 2 ^ 16) }
{
    uint_at::<2>(bytes, 4) as usize
}

// A word's number, in two halves: of these the compiler makes one load, and of eight bytes as many loads as there are bytes.
fn word_at(bytes: &[u8], at: usize) -> u64
    requires { at + 8 ≤ length bytes.now }
    ensures { result ≡ value_of (take 8 (drop at bytes.now)) }
{
    uint_at::<4>(bytes, at) * (1 << 32) + uint_at::<4>(bytes, at + 4)
}

// Whether the bytes are an image: neither their length nor the words' kinds and order of offers are wrong.
pub fn is_image(bytes: &[u8]) -> bool
    ensures { result ≡ is_image bytes.now }
{
    if bytes.len() < HEADER_BYTES {
        return false;
    }
    let count = count_of(bytes);
    if bytes.len() != HEADER_BYTES + WORD_BYTES * count {
        return false;
    }
    let mut last = Entry::LAST_REMOVAL;
    for i in 0..count {
        let key = Entry::key_of(word_at(bytes, HEADER_BYTES + WORD_BYTES * i));
        if key <= last {
            return false;
        }
        last = key;
    }
    true
}

// Reads an image's words to the start of the table; the words behind them stay. The bytes have all the words
// that the image counts, and the table has room for them.
pub fn read_words(bytes: &[u8], table: &mut [u64])
    requires { (6 + 8 * count_in bytes.now ≤ length bytes.now) × (count_in bytes.now ≤ length table.old) }
    ensures { table.new ≡ words_in bytes.now ++ drop (count_in bytes.now) table.old }
{
    let count = count_of(bytes);
    for (i, word) in table[..count].iter_mut().enumerate() {
        *word = word_at(bytes, HEADER_BYTES + WORD_BYTES * i);
    }
}
