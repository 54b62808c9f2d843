// A sheet written.
ghost use Rattle.std.specs.Prelude.{◌≡◌, ◌∷◌, ◌++◌, ◌+◌, ◌*◌, ◌%◌, ◌<◌, ◌≤◌, length, take, drop};
ghost use Rattle.entry.specs.Word.{offer_of};
ghost use Rattle.changes.specs.Lists.{From, Map};
ghost use Rattle.sheet.specs.Runs.{is_of_row, run_row};
ghost use Rattle.sheet.specs.Sheet.{row_of, rows_of, row_bytes, sheet_of, sheet_size};

use crate::rows::{bit, place};
use crate::{HEADER_BYTES, NUMBER_UNIT, PRICE_BYTES, ROW_BYTES, SEATS};
use big_endian::numbers::put_uint;
use entry::Entry;

// The row of a word's offer.
fn row_of(word: u64) -> u32
    ensures { result ≡ row_of (offer_of word) }
{
    Entry::offer_of(word) / SEATS
}

// The seat of a word's offer in its row.
fn seat_of(word: u64) -> u32
    ensures { result ≡ offer_of word % 32 }
{
    Entry::offer_of(word) % SEATS
}

// How many rows a map's words have: a word begins a row unless the word before it is of the same row.
pub fn count_rows(words: &[u64]) -> usize
    ensures { (result ≡ length (rows_of words.now)) × (result ≤ length words.now) }
{
    let mut count = 0;
    let mut last = None;
    for word in words {
        let row = Some(row_of(*word));
        if row != last {
            count += 1;
            last = row;
        }
    }
    count
}

// Whether there is a word at a position, and it is of the row.
fn is_of_row(words: &[u64], i: usize, row: u32) -> bool
    ensures { result ≡ is_of_row words.now i row }
{
    i < words.len() && row_of(words[i]) == row
}

// Writes the first row of rising words to the start of `out`, its number, its mask and its prices, in one pass over the row's words, and
// gives how many they are; the bytes behind the row stay. There is room for a row of all words.
fn put_row(words: &[u64], out: &mut [u8]) -> usize
    requires { From 0 words.now × (0 < length words.now) × (8 + 4 * length words.now ≤ length out.old) }
    ensures { (0 < result)
        × (result ≤ length words.now)
        × (rows_of words.now ≡ run_row (take result words.now) ∷ rows_of (drop result words.now))
        × (out.new ≡ row_bytes (run_row (take result words.now)) ++ drop (8 + 4 * result) out.old) }
{
    let row = row_of(words[0]);
    put_uint::<4>(out, 0, u64::from(row) * NUMBER_UNIT);
    let mut mask = 0;
    let mut count = 0;
    // A word is the row's last if the next is not of the row.
    // In one pass: to find the last word first (`chunk_by`, `take_while`) takes a sheet with one seat a row over its bar of 1.1.
    while is_of_row(words, count + 1, row) {
        let word = words[count];
        mask += bit(seat_of(word));
        put_uint::<4>(
            out,
            ROW_BYTES + PRICE_BYTES * count,
            u64::from(Entry::price_of(word)),
        );
        count += 1;
    }
    let last = words[count];
    let seat = seat_of(last);
    mask += bit(seat);
    put_uint::<4>(out, 4, u64::from(mask));
    // The mask is whole: the last word's price stands after as many prices as seats of the mask precede its seat.
    put_uint::<4>(
        out,
        ROW_BYTES + PRICE_BYTES * place(mask, seat),
        u64::from(Entry::price_of(last)),
    );
    count + 1
}

// Writes the sheet of a state number and a map's words, whose rows are counted, to the start of `out`, which has room for it, and gives its
// length; the bytes behind it stay.
pub fn write(state: u32, words: &[u64], rows: u32, out: &mut [u8]) -> usize
    requires { Map words.now × (rows ≡ length (rows_of words.now)) × (sheet_size words.now ≤ length out.old) }
    ensures { (result ≡ sheet_size words.now)
        × (out.new ≡ sheet_of state words.now ++ drop result out.old) }
{
    put_uint::<4>(out, 0, u64::from(state));
    put_uint::<4>(out, 4, u64::from(rows));
    let mut at = HEADER_BYTES;
    let mut left = words;
    while !left.is_empty() {
        let count = put_row(left, &mut out[at..]);
        at += ROW_BYTES + PRICE_BYTES * count;
        left = &left[count..];
    }
    at
}
