// A state written into lent bytes, as an image or a sheet. Its map is worked out in a buffer, since its size must be known before
// the first byte is stored; the map at the checkpoint is the table's own words.
ghost use Rattle.std.specs.Prelude.{◌≡◌, ◌≤◌, length};
ghost use Rattle.answers.specs.Answers.{Gives};
ghost use Rattle.changes.specs.Lists.{Map};
ghost use Rattle.layout.specs.States.{map_here};
ghost use Rattle.state_maps.specs.Held.{HeldState, MapRoom};
ghost use Rattle.exports.specs.Export.{answer_of, write_answer, write_bytes, tip_answer, tip_bytes};
ghost use Rattle.formats.specs.Put.{put_count, put_bytes};

use answers::call::Format;
use answers::ground::Ground;
use formats::writing::put;
use layout::head::{Head, JOURNAL_WORDS, MAP_WORDS};
use soundness::StoreRef;
use state_maps::map_at;
use state_maps::sizes::{FEW_USED, FEW_WORDS, are_few, words_to};

// The words of the map where table and steps have few.
const FEW_MAP: usize = FEW_USED + FEW_WORDS;

// The head of a store as a value, of which its type says how long its arrays are: of one behind a reference in a struct it does not.
fn head_of(store: StoreRef) -> Head
    ensures { result ≡ store.entry.head.now }
{
    *store.head
}

// Works the map at a state out in buffers of so many words, and writes it. It has a frame of its own, so that only a call that needs the
// buffers has them on its stack.
#[inline(never)]
fn write_in<const CHANGES: usize, const MAP: usize>(
    store: StoreRef,
    format: Format,
    state: u32,
    bytes: &mut [u8],
) -> Result<usize, Ground>
    requires held { HeldState store.table.now store.journal.now store.head.now state }
    requires room { MapRoom store.head.now state CHANGES MAP }
    requires sizes { (CHANGES ≤ 4096) × (MAP ≤ 12096) }
    ensures { (result
        ≡ put_count format (map_here store.entry.table.now store.entry.journal.now store.entry.head.now state) (length bytes.old))
        × (bytes.new
        ≡ put_bytes format state (map_here store.entry.table.now store.entry.journal.now store.entry.head.now state) bytes.old) }
{
    let mut changes = [0u64; CHANGES];
    let mut map = [0u64; MAP];
    let head = head_of(store);
    let size = map_at(
        store.table,
        store.journal,
        head,
        state,
        &mut changes,
        &mut map,
    );
    put(format, state, &map[..size], bytes)
}

// Writes a state that the store holds. Where the steps to it have no word, its map is the table's.
fn write_held(
    store: StoreRef,
    format: Format,
    state: u32,
    bytes: &mut [u8],
) -> Result<usize, Ground>
    requires { HeldState store.table.now store.journal.now store.head.now state }
    ensures { (result
        ≡ put_count format (map_here store.entry.table.now store.entry.journal.now store.entry.head.now state) (length bytes.old))
        × (bytes.new
        ≡ put_bytes format state (map_here store.entry.table.now store.entry.journal.now store.entry.head.now state) bytes.old) }
{
    let head = head_of(store);
    let words = words_to(head, state);
    if words == 0 {
        return put(format, state, &store.table[..head.used], bytes);
    }
    if are_few(head.used, words) {
        return write_in::<FEW_WORDS, FEW_MAP>(store, format, state, bytes);
    }
    write_in::<JOURNAL_WORDS, MAP_WORDS>(store, format, state, bytes)
}

// Writes the state named to the start of the bytes; those behind it stay.
#[tactic(auto, unfolding(answers::specs::First::first, crate::specs::Export::state_size, crate::specs::Export::state_bytes))]
pub fn write_state(
    store: StoreRef,
    format: Format,
    state: u32,
    bytes: &mut [u8],
) -> Result<usize, Ground>
    ensures answer { Gives (answer_of result)
        (write_answer format store.entry.table.now store.entry.journal.now store.entry.head.now state (length bytes.old)) }
    ensures bytes { bytes.new ≡ write_bytes format store.entry.table.now store.entry.journal.now store.entry.head.now state bytes.old }
{
    store.check()?;
    store.check_state(state)?;
    write_held(store, format, state, bytes)
}

// The same with no state named: the tip.
#[tactic(auto, using(crate::proofs::Writing::tip_check))]
pub fn write_tip(store: StoreRef, format: Format, bytes: &mut [u8]) -> Result<usize, Ground>
    ensures answer { Gives (answer_of result)
        (tip_answer format store.entry.table.now store.entry.journal.now store.entry.head.now (length bytes.old)) }
    ensures bytes { bytes.new ≡ tip_bytes format store.entry.table.now store.entry.journal.now store.entry.head.now bytes.old }
{
    write_state(store, format, store.head.tip, bytes)
}
