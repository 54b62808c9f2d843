// The listing program (document 01, "Image and listing"): reads one image on standard input into a table of
// 8,000 words and prints its state, or the number of the ground on which it is refused.
#![tactic(auto)]

mod report;
mod standard;
mod streams;

use standard::{StandardInput, StandardOutput};
use streams::list;

fn main() {
    let mut input = StandardInput { is_at_end: false };
    // README promises status 0 where a read or a write fails, too.
    let _ = list(&mut input, &mut StandardOutput);
}
