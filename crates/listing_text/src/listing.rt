// The lines of a listing.
ghost use Rattle.std.specs.Prelude.{◌≡◌, ◌++◌, ◌+◌, ◌*◌, ◌≤◌, length, drop};
ghost use Rattle.listing_text.specs.Listing.{header_of, line_of, text_of, refusal_text};
ghost use Rattle.listing_text.specs.Stored.{Puts};

use crate::text::Text;
use entry::Entry;

// Puts the first line behind the text that is there; all other bytes stay. Its words take 15 bytes, a state number at most 10
// and a count at most 20.
#[tactic(auto, using(crate::proofs::Digits::short))]
fn put_header(text: &mut Text<'_>, state: u32, count: usize)
    requires { text.old.end + 45 ≤ length text.old.bytes.now }
    ensures { Puts text.old (header_of state count) text.new }
{
    text.put_text(b"state ");
    text.put_decimal(state as u64);
    text.put_text(b" offers ");
    text.put_decimal(count as u64);
    text.put_text(b"\n");
}

// Puts a word's line behind those that are there; all other bytes stay. An offer and a price take at most 10 bytes each.
#[tactic(auto, using(crate::proofs::Digits::digits_32))]
fn put_line(lines: &mut Text<'_>, word: u64)
    requires { lines.old.end + 22 ≤ length lines.old.bytes.now }
    ensures { Puts lines.old (line_of word) lines.new }
{
    lines.put_decimal(Entry::offer_of(word) as u64);
    lines.put_text(b" ");
    lines.put_decimal(Entry::price_of(word) as u64);
    lines.put_text(b"\n");
}

// Stores the listing of a state number and a map's words at the start, and gives its length; the bytes behind
// it stay. There is room for the longest listing of so many words.
pub fn render(state: u32, words: &[u64], out: &mut [u8]) -> usize
    requires { 45 + 22 * length words.now ≤ length out.old }
    ensures { (result ≡ length (text_of state words.now))
        × (out.new ≡ text_of state words.now ++ drop result out.old) }
{
    let mut text = Text::new(out);
    put_header(&mut text, state, words.len());
    for word in words {
        put_line(&mut text, *word);
    }
    text.end()
}

// Stores the line of a refusal at the start, and gives its length; the bytes behind it stay. There is room for
// the longest number.
#[tactic(auto, using(crate::proofs::Digits::digits_32))]
pub fn render_refusal(number: u32, out: &mut [u8]) -> usize
    requires { 19 ≤ length out.old }
    ensures { (result ≡ length (refusal_text number)) × (out.new ≡ refusal_text number ++ drop result out.old) }
{
    let mut text = Text::new(out);
    text.put_text(b"refused ");
    text.put_decimal(number as u64);
    text.put_text(b"\n");
    text.end()
}
