// An image written.
ghost use Rattle.std.specs.Prelude.{◌≡◌, ◌++◌, ◌+◌, ◌*◌, ◌^◌, ◌<◌, ◌≤◌, length, drop};
ghost use Rattle.image.specs.Image.{image_of};

use crate::{HEADER_BYTES, WORD_BYTES};
use big_endian::numbers::put_uint;

// Writes the image of a state number and the words to the start of `out`, and gives its length; the bytes
// behind it stay. The count fits its field, and `out` has room.
pub fn write(state: u32, words: &[u64], out: &mut [u8]) -> usize
    requires { (length words.now < 2 ^ 16) × (6 + 8 * length words.now ≤ length out.old) }
    ensures { (result ≡ 6 + 8 * length words.now)
        × (out.new ≡ image_of state words.now ++ drop result out.old) }
{
    put_uint::<4>(out, 0, u64::from(state));
    put_uint::<2>(out, 4, words.len() as u64);
    for (i, word) in words.iter().enumerate() {
        put_uint::<WORD_BYTES>(out, HEADER_BYTES + WORD_BYTES * i, *word);
    }
    HEADER_BYTES + WORD_BYTES * words.len()
}
