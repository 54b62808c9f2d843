// What the listing prints, rendered into lent bytes.
ghost use Rattle.std.specs.Prelude.{◌≡◌, ◌≤◌, length};
ghost use Rattle.listing.specs.Report.{report_of, Rendered, table_after, journal_after};

use answers::call::Format;
use answers::ground::Ground;
use listing_text::listing::{render, render_refusal};
use snapshot::fresh::fresh_head;
use snapshot::load::load;

// The longest image that is read.
pub const IMAGE_BYTES: usize = 64006;

// Renders the listing of the image, or the line of its refusal, at the start of `text`, and gives its length;
// the bytes behind it stay. The table has 8,000 words, and `text` has room for the longest listing.
pub fn report(image: &[u8], table: &mut [u64], journal: &mut [u64], text: &mut [u8]) -> usize
    requires { (length table.old ≡ 8000) × (length journal.old ≡ 1) × (176045 ≤ length text.old) }
    ensures { Rendered (report_of image.now) text.old text.new result
        × (table.new ≡ table_after table.old journal.old image.now)
        × (journal.new ≡ journal_after table.old journal.old image.now) }
{
    if IMAGE_BYTES < image.len() {
        return render_refusal(Ground::BadImage.into(), text);
    }
    let mut head = fresh_head(0, 0, 0);
    match load(table, journal, &mut head, 0, Format::Image, image) {
        Ok(()) => render(head.checkpoint, &table[..head.used], text),
        Err(ground) => render_refusal(ground.into(), text),
    }
}
