// A sheet tested and read.
ghost use Rattle.std.specs.Prelude.{◌≡◌, true, cond, Some, None, IfSome, ◌++◌, ◌+◌, ◌*◌, ◌/◌, ◌^◌, ◌<◌, ◌≤◌, length, drop};
ghost use Rattle.sheet.specs.Sheet.{set_bits, tag_in, mask_in, seat_words, row_in, row_size, is_row, words_in, is_sheet};

use crate::rows::{bit, prices};
use crate::{HEADER_BYTES, NUMBER_UNIT, PRICE_BYTES, ROW_BYTES, SEATS};
use big_endian::numbers::uint_at;
use entry::Entry;

// The number of the row at the start of the bytes, and how many bytes the row takes. None stands there where fewer bytes are left, a bit
// behind its number is set, its number is below the least, or its mask is zero.
#[tactic(auto, unfolding(crate::specs::Sheet::is_row))]
fn first_row(bytes: &[u8], least: u64) -> Option<(u64, usize)>
    ensures row { result ≡ cond (is_row least bytes.now) (Some (tag_in bytes.now / 64, row_size (mask_in bytes.now))) None }
    ensures inside { IfSome result (λ row. (row.0 < 2 ^ 26) × (row.1 ≤ length bytes.now)) }
{
    if bytes.len() < ROW_BYTES {
        return None;
    }
    let tag = uint_at::<4>(bytes, 0);
    let mask = uint_at::<4>(bytes, 4) as u32;
    if tag % NUMBER_UNIT != 0 || tag / NUMBER_UNIT < least || mask == 0 {
        return None;
    }
    let size = ROW_BYTES + PRICE_BYTES * prices(mask);
    if bytes.len() < size {
        return None;
    }
    Some((tag / NUMBER_UNIT, size))
}

// Tests the whole sheet, and counts its offers: the bytes are a header, a header for each row and a price for each offer.
pub fn count_offers(bytes: &[u8]) -> Option<usize>
    ensures { result ≡ cond (is_sheet bytes.now) (Some (length (words_in bytes.now))) None }
{
    if bytes.len() < HEADER_BYTES {
        return None;
    }
    let rows = uint_at::<4>(bytes, 4);
    let mut least = 0;
    let mut left = &bytes[HEADER_BYTES..];
    for _ in 0..rows {
        let (number, size) = first_row(left, least)?;
        least = number + 1;
        left = &left[size..];
    }
    if !left.is_empty() {
        return None;
    }
    Some((bytes.len() - HEADER_BYTES - ROW_BYTES * rows as usize) / PRICE_BYTES)
}

// Reads the words of the row at the start of the bytes, a word for each set bit of its mask, to the start of the table, and gives how many
// they are; the words behind them stay. The bytes have the whole row, and the table has room for its words. The bits are taken one by one,
// and not counted first: the next row, whose place hangs on the count, would wait for it.
fn read_row(bytes: &[u8], table: &mut [u64]) -> usize
    requires { (0 < mask_in bytes.now)
        × (row_size (mask_in bytes.now) ≤ length bytes.now)
        × (set_bits (mask_in bytes.now) ≤ length table.old) }
    ensures words { (result ≡ set_bits (mask_in bytes.now))
        × (table.new ≡ seat_words (row_in bytes.now) 32 ++ drop result table.old) }
    ensures inside { (8 + 4 * result ≤ length bytes.now) × (result ≤ length table.old) }
{
    let number = uint_at::<4>(bytes, 0) / NUMBER_UNIT;
    let mask = uint_at::<4>(bytes, 4) as u32;
    let mut rest = mask;
    for (i, word) in table.iter_mut().enumerate() {
        if rest == 0 {
            return i;
        }
        let seat = rest.leading_zeros();
        let price = uint_at::<4>(bytes, ROW_BYTES + PRICE_BYTES * i);
        *word = Entry::put(number as u32 * SEATS + seat, price as u32);
        rest -= bit(seat);
    }
    table.len()
}

// Reads a sheet's words to the start of the table, which has room for them; the words behind them stay.
#[tactic(auto, using(crate::proofs::SheetTest::has_header))]
pub fn read_words(bytes: &[u8], table: &mut [u64])
    requires { (is_sheet bytes.now ≡ true) × (length (words_in bytes.now) ≤ length table.old) }
    ensures { table.new ≡ words_in bytes.now
        ++ drop (length (words_in bytes.now)) table.old }
{
    let rows = uint_at::<4>(bytes, 4);
    let mut left = &bytes[HEADER_BYTES..];
    let mut from = 0;
    for _ in 0..rows {
        let count = read_row(left, &mut table[from..]);
        left = &left[ROW_BYTES + PRICE_BYTES * count..];
        from += count;
    }
}
