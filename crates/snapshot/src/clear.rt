// Clear: the empty map as state 0, with a depth.
ghost use Rattle.std.specs.Prelude.{◌≡◌};
ghost use Rattle.answers.specs.Answers.{Checks};
ghost use Rattle.snapshot.specs.Snapshots.{clear_check, clear_head, clear_words};

use crate::fresh::{fresh_check, fresh_head};
use answers::ground::Ground;
use layout::head::Head;
use words::clear as clear_words;

// Makes a store of the empty map in the memory lent.
pub fn clear(
    table: &mut [u64],
    journal: &mut [u64],
    head: &mut Head,
    depth: u32,
) -> Result<(), Ground>
    ensures answer { Checks result (clear_check table.old journal.old depth) }
    ensures head { head.new ≡ clear_head table.old journal.old depth head.old }
    ensures table { table.new ≡ clear_words table.old journal.old depth table.old }
    ensures journal { journal.new ≡ clear_words table.old journal.old depth journal.old }
{
    fresh_check(table.len(), journal.len(), depth)?;
    clear_words(table);
    clear_words(journal);
    *head = fresh_head(0, 0, depth);
    Ok(())
}
