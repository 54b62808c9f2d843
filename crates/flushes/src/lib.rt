// Flush: the table becomes the map at a named state, which is the checkpoint then, and the steps that no read needs
// go.
#![tactic(auto)]

ghost use Rattle.std.specs.Prelude.{◌≡◌, ◌≤◌, ◌<◌, length, MatchResult, Ok, Err};
ghost use Rattle.answers.specs.declared.ground.Ground.TheVariants.{TableFull};
ghost use Rattle.answers.specs.Answers.{Checks};
ghost use Rattle.layout.specs.States.{map_here};
ghost use Rattle.state_maps.specs.Held.{HeldState, MapRoom, words_to};
ghost use Rattle.flushes.specs.Flush.{flush_check, flush_size, table_at, flush_table, flush_head, flush_journal};

use answers::ground::Ground;
use layout::head::{Head, JOURNAL_WORDS, MAP_WORDS};
use soundness::StoreRef;
use state_maps::map_at;
use state_maps::sizes::{FEW_USED, FEW_WORDS, are_few, words_to};
use table::replace;
use views::trim::trim;

// The most words that a map has where table and steps have few.
const FEW_MAP: usize = FEW_USED + FEW_WORDS;

// Makes the table the map at a state, and gives the size of that map, or ground 16 where the table has no room for it. The map is
// worked out before any store, in buffers of so many words, and each word of the table is stored once. The buffers lie in a frame of
// their own: that of the large ones is probed page by page, and only a flush of many words needs it.
#[inline(never)]
#[tactic(auto, using(crate::proofs::Flushing::map_written))]
fn move_table<const CHANGES: usize, const MAP: usize>(
    table: &mut [u64],
    journal: &[u64],
    head: &Head,
    state: u32,
) -> Result<usize, Ground>
    requires held { HeldState table.old journal.now head.now state }
    requires room { MapRoom head.now state CHANGES MAP }
    requires sizes { (CHANGES ≤ 12096) × (MAP ≤ 12096) }
    ensures size { MatchResult result
        (λ size. (size ≡ length (map_here table.old journal.now head.now state)) × (size ≤ length table.old))
        (λ why. (why ≡ TableFull) × (length table.old < length (map_here table.old journal.now head.now state))) }
    ensures table { table.new ≡ table_at table.old journal.now head.now state }
{
    let mut changes = [0u64; CHANGES];
    let mut map = [0u64; MAP];
    let size = map_at(table, journal, *head, state, &mut changes, &mut map);
    if table.len() < size {
        return Err(Ground::TableFull);
    }
    replace(table, head.used, &map[..size]);
    Ok(size)
}

// What a flush does with the table: the words that it uses then, or the ground that turns the flush away. Where the steps to the state
// have no word, the table is the map at the state already.
#[tactic(auto, using(crate::proofs::Flushing::facts), unfolding(answers::specs::First::first))]
fn flush_table(table: &mut [u64], journal: &[u64], head: &Head, state: u32) -> Result<usize, Ground>
    ensures size { result ≡ flush_size table.old journal.now head.now state }
    ensures table { table.new ≡ flush_table table.old journal.now head.now state }
{
    let store = StoreRef {
        table,
        journal,
        head,
    };
    store.check()?;
    store.check_target(state)?;
    let words = words_to(*head, state);
    if words == 0 {
        return Ok(head.used);
    }
    if are_few(head.used, words) {
        move_table::<FEW_WORDS, FEW_MAP>(table, journal, head, state)
    } else {
        move_table::<JOURNAL_WORDS, MAP_WORDS>(table, journal, head, state)
    }
}

// Makes the table the map at the state, and the state the checkpoint.
#[tactic(auto, unfolding(crate::specs::Flush::flushed_head))]
pub fn flush(
    table: &mut [u64],
    journal: &mut [u64],
    head: &mut Head,
    state: u32,
) -> Result<(), Ground>
    ensures answer { Checks result (flush_check table.old journal.old head.old state) }
    ensures head { head.new ≡ flush_head table.old journal.old head.old state }
    ensures table { table.new ≡ flush_table table.old journal.old head.old state }
    ensures journal { journal.new ≡ flush_journal table.old journal.old head.old state }
{
    let used = flush_table(table, journal, head, state)?;
    let flushed = Head {
        used,
        checkpoint: state,
        ..*head
    };
    *head = trim(journal, flushed);
    Ok(())
}
