// Load: the map of an image or a sheet under its state number, with a depth.
ghost use Rattle.std.specs.Prelude.{◌≡◌};
ghost use Rattle.answers.specs.Answers.{Checks};
ghost use Rattle.snapshot.specs.Snapshots.{load_check, load_head, load_table, load_journal};

use crate::fresh::{fresh_check, fresh_store};
use answers::call::Format;
use answers::ground::Ground;
use formats::reading::{count_of, read, state_of};
use layout::head::Head;

// Makes a store of the bytes' map in the memory lent.
#[tactic(auto, using(formats::proofs::Laws::has_number), unfolding(answers::specs::First::first))]
pub fn load(
    table: &mut [u64],
    journal: &mut [u64],
    head: &mut Head,
    depth: u32,
    format: Format,
    bytes: &[u8],
) -> Result<(), Ground>
    ensures answer { Checks result (load_check table.old journal.old depth format bytes.now) }
    ensures head { head.new ≡ load_head table.old journal.old depth format bytes.now head.old }
    ensures table { table.new ≡ load_table table.old journal.old depth format bytes.now }
    ensures journal { journal.new ≡ load_journal table.old journal.old depth format bytes.now }
{
    fresh_check(table.len(), journal.len(), depth)?;
    let count = count_of(format, bytes).ok_or(Ground::BadImage)?;
    if table.len() < count {
        return Err(Ground::TableFull);
    }
    read(format, bytes, table);
    *head = fresh_store(table, journal, count, state_of(bytes), depth);
    Ok(())
}
