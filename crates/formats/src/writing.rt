// A map and its state number written in a format.
ghost use Rattle.std.specs.Prelude.{◌≡◌, ◌≤◌, length};
ghost use Rattle.answers.specs.declared.call.Format.TheVariants.{Image, Sheet};
ghost use Rattle.changes.specs.Lists.{Map};
ghost use Rattle.formats.specs.Put.{put_count, put_bytes};

use answers::call::Format;
use answers::ground::Ground;
use image::writing::write as write_image;
use image::{HEADER_BYTES as IMAGE_HEADER, WORD_BYTES};
use sheet::writing::{count_rows, write as write_sheet};
use sheet::{HEADER_BYTES as SHEET_HEADER, PRICE_BYTES, ROW_BYTES};

// Writes the image of a state number and a map's words to the start of `out`, where it has room.
fn put_image(state: u32, words: &[u64], out: &mut [u8]) -> Result<usize, Ground>
    requires { length words.now ≤ 12096 }
    ensures { (result ≡ put_count Image words.now (length out.old))
        × (out.new ≡ put_bytes Image state words.now out.old) }
{
    if out.len() < IMAGE_HEADER + WORD_BYTES * words.len() {
        return Err(Ground::OutputShort);
    }
    Ok(write_image(state, words, out))
}

// The same of the sheet, whose rows are counted before its first byte is stored.
#[tactic(auto, unfolding(sheet::specs::Sheet::sheet_size))]
fn put_sheet(state: u32, words: &[u64], out: &mut [u8]) -> Result<usize, Ground>
    requires { Map words.now × (length words.now ≤ 12096) }
    ensures { (result ≡ put_count Sheet words.now (length out.old))
        × (out.new ≡ put_bytes Sheet state words.now out.old) }
{
    let rows = count_rows(words);
    if out.len() < SHEET_HEADER + ROW_BYTES * rows + PRICE_BYTES * words.len() {
        return Err(Ground::OutputShort);
    }
    Ok(write_sheet(state, words, rows as u32, out))
}

// Writes a state number and a map's words to the start of `out`, where it has room.
pub fn put(format: Format, state: u32, words: &[u64], out: &mut [u8]) -> Result<usize, Ground>
    requires { Map words.now × (length words.now ≤ 12096) }
    ensures { (result ≡ put_count format words.now (length out.old))
        × (out.new ≡ put_bytes format state words.now out.old) }
{
    match format {
        Format::Image => put_image(state, words, out),
        Format::Sheet => put_sheet(state, words, out),
    }
}
