// Restart: the checkpoint's image is written into lent bytes and loaded back, so that the tip becomes the checkpoint and
// all slots close. The depth stays.
#![tactic(auto)]

ghost use Rattle.std.specs.Prelude.{◌≡◌, Err, MatchResult, length};
ghost use Rattle.answers.specs.Answers.{Checks};
ghost use Rattle.restarts.specs.Restart.{restart_check, restart_head, restart_table, restart_journal, restart_bytes};
ghost use Rattle.restarts.specs.Written.{Written};

use answers::call::Format;
use answers::ground::Ground;
use exports::write::write_state;
use formats::reading::read;
use layout::head::Head;
use snapshot::fresh::fresh_store;
use soundness::StoreRef;

// Writes the checkpoint's image, and gives how many bytes it takes.
fn write_checkpoint(
    table: &[u64],
    journal: &[u64],
    head: &Head,
    bytes: &mut [u8],
) -> Result<usize, Ground>
    ensures { MatchResult result
        (λ count. Written table.now journal.now head.now bytes.old bytes.new count)
        (λ why. (restart_check table.now journal.now head.now (length bytes.old) ≡ Err why) × (bytes.new ≡ bytes.old)) }
{
    let store = StoreRef {
        table,
        journal,
        head,
    };
    write_state(store, Format::Image, head.checkpoint, bytes)
}

// Writes the checkpoint's image, and makes a store of it in the memory lent.
pub fn restart(
    table: &mut [u64],
    journal: &mut [u64],
    head: &mut Head,
    bytes: &mut [u8],
) -> Result<(), Ground>
    ensures answer { Checks result (restart_check table.old journal.old head.old (length bytes.old)) }
    ensures head { head.new ≡ restart_head table.old journal.old head.old (length bytes.old) }
    ensures table { table.new ≡ restart_table table.old journal.old head.old (length bytes.old) }
    ensures journal { journal.new ≡ restart_journal table.old journal.old head.old (length bytes.old) }
    ensures bytes { bytes.new ≡ restart_bytes table.old journal.old head.old bytes.old }
{
    let written = write_checkpoint(table, journal, head, bytes)?;
    read(Format::Image, &bytes[..written], table);
    *head = fresh_store(table, journal, head.used, head.checkpoint, head.depth);
    Ok(())
}
