// Bytes in a format tested and read.
ghost use Rattle.std.specs.Prelude.{◌≡◌, true, ◌++◌, ◌≤◌, length, drop};
ghost use Rattle.answers.specs.declared.call.Format.TheVariants.{Image};
ghost use Rattle.image.specs.Image.{number_in};
ghost use Rattle.formats.specs.Formats.{is_of_format, map_in, offers_in};

use answers::call::Format;
use big_endian::numbers::uint_at;
use image::reading::{count_of as image_count, is_image, read_words as read_image};
use sheet::reading::{count_offers, read_words as read_sheet};

// How many offers an image has, if the bytes are one.
fn image_offers(bytes: &[u8]) -> Option<usize>
    ensures { result ≡ offers_in Image bytes.now }
{
    if !is_image(bytes) {
        return None;
    }
    Some(image_count(bytes))
}

// How many offers the bytes have, if they are of the format: the whole of them is tested.
pub fn count_of(format: Format, bytes: &[u8]) -> Option<usize>
    ensures { result ≡ offers_in format bytes.now }
{
    match format {
        Format::Image => image_offers(bytes),
        Format::Sheet => count_offers(bytes),
    }
}

// The state number, with which both formats begin.
#[tactic(auto, unfolding(image::specs::Image::number_in))]
pub fn state_of(bytes: &[u8]) -> u32
    requires { 4 ≤ length bytes.now }
    ensures { result ≡ number_in bytes.now }
{
    uint_at::<4>(bytes, 0) as u32
}

// Reads the words of the map in tested bytes to the start of the table, which has room for them; the words behind them stay.
pub fn read(format: Format, bytes: &[u8], table: &mut [u64])
    requires { (is_of_format format bytes.now ≡ true) × (length (map_in format bytes.now) ≤ length table.old) }
    ensures { table.new
        ≡ map_in format bytes.now ++ drop (length (map_in format bytes.now)) table.old }
{
    match format {
        Format::Image => read_image(bytes, table),
        Format::Sheet => read_sheet(bytes, table),
    }
}
