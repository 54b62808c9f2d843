// The calls on a store, as C calls them. A caller is 0, the desk, or any other number, the foyer.
ghost use Rattle.std.specs.Prelude.{◌≡◌, []};
ghost use Rattle.lent.specs.Asked.{clear, load, load_sheet, restart, commit, roll_back, flush, issue, forward, release, look_up};
ghost use Rattle.lent.specs.Asked.{write_image, write_state_image, write_sheet, write_state_sheet};
ghost use Rattle.lent.specs.Lent.{Serves, Tells, TellsSince, words_after, bytes_after, bytes_written};

use head_words::HEAD_WORDS;
use lent::storing::TALLY_WORDS;

// The empty map as state 0, with a depth.
#[unsafe(no_mangle)]
pub extern "C" fn cechnuol_clear(
    table: &mut [u64],
    journal: &mut [u64],
    head: &mut [u64; HEAD_WORDS],
    tally: &mut [u64; TALLY_WORDS],
    depth: u32,
) -> u64
    ensures { Serves table.old journal.old [] [] head.old tally.old
        (clear depth) result table.new journal.new head.new tally.new }
{
    cechnuol::store::cechnuol_clear(table, journal, head, tally, depth)
}

// Loads the image that the bytes are, with a depth.
#[unsafe(no_mangle)]
pub extern "C" fn cechnuol_load(
    table: &mut [u64],
    journal: &mut [u64],
    head: &mut [u64; HEAD_WORDS],
    tally: &mut [u64; TALLY_WORDS],
    depth: u32,
    bytes: &[u8],
) -> u64
    ensures { Serves table.old journal.old [] bytes.now head.old
        tally.old (load depth) result table.new journal.new head.new tally.new
        × (bytes.now
        ≡ bytes_after table.old journal.old [] bytes.now head.old
        tally.old (load depth)) }
{
    cechnuol::store::cechnuol_load(table, journal, head, tally, depth, bytes)
}

// Writes the image of the tip to the start of the bytes, and its length to `count`.
#[unsafe(no_mangle)]
pub extern "C" fn cechnuol_write_image(
    table: &[u64],
    journal: &[u64],
    head: &[u64; HEAD_WORDS],
    bytes: &mut [u8],
    count: &mut u64,
) -> u64
    ensures { Tells table.now journal.now [] bytes.old head.now
        write_image result count.new count.old
        × (bytes.new
        ≡ bytes_written table.now journal.now [] bytes.old head.now write_image) }
{
    cechnuol::store::cechnuol_write_image(table, journal, head, bytes, count)
}

// Writes the image of a state to the start of the bytes, and its length to `count`.
#[unsafe(no_mangle)]
pub extern "C" fn cechnuol_write_state_image(
    table: &[u64],
    journal: &[u64],
    head: &[u64; HEAD_WORDS],
    state: u32,
    bytes: &mut [u8],
    count: &mut u64,
) -> u64
    ensures { Tells table.now journal.now [] bytes.old head.now
        (write_state_image state) result count.new count.old
        × (bytes.new
        ≡ bytes_written table.now journal.now [] bytes.old head.now
        (write_state_image state)) }
{
    cechnuol::store::cechnuol_write_state_image(table, journal, head, state, bytes, count)
}

// Loads the sheet that the bytes are, with a depth.
#[unsafe(no_mangle)]
pub extern "C" fn cechnuol_load_sheet(
    table: &mut [u64],
    journal: &mut [u64],
    head: &mut [u64; HEAD_WORDS],
    tally: &mut [u64; TALLY_WORDS],
    depth: u32,
    bytes: &[u8],
) -> u64
    ensures { Serves table.old journal.old [] bytes.now head.old
        tally.old (load_sheet depth) result table.new journal.new head.new tally.new
        × (bytes.now
        ≡ bytes_after table.old journal.old [] bytes.now head.old
        tally.old (load_sheet depth)) }
{
    cechnuol::store::cechnuol_load_sheet(table, journal, head, tally, depth, bytes)
}

// Writes the sheet of the tip to the start of the bytes, and its length to `count`.
#[unsafe(no_mangle)]
pub extern "C" fn cechnuol_write_sheet(
    table: &[u64],
    journal: &[u64],
    head: &[u64; HEAD_WORDS],
    bytes: &mut [u8],
    count: &mut u64,
) -> u64
    ensures { Tells table.now journal.now [] bytes.old head.now
        write_sheet result count.new count.old
        × (bytes.new
        ≡ bytes_written table.now journal.now [] bytes.old head.now write_sheet) }
{
    cechnuol::store::cechnuol_write_sheet(table, journal, head, bytes, count)
}

// Writes the sheet of a state to the start of the bytes, and its length to `count`.
#[unsafe(no_mangle)]
pub extern "C" fn cechnuol_write_state_sheet(
    table: &[u64],
    journal: &[u64],
    head: &[u64; HEAD_WORDS],
    state: u32,
    bytes: &mut [u8],
    count: &mut u64,
) -> u64
    ensures { Tells table.now journal.now [] bytes.old head.now
        (write_state_sheet state) result count.new count.old
        × (bytes.new
        ≡ bytes_written table.now journal.now [] bytes.old head.now
        (write_state_sheet state)) }
{
    cechnuol::store::cechnuol_write_state_sheet(table, journal, head, state, bytes, count)
}

// Writes the image of the checkpoint to the start of the bytes and loads it back.
#[unsafe(no_mangle)]
pub extern "C" fn cechnuol_restart(
    table: &mut [u64],
    journal: &mut [u64],
    head: &mut [u64; HEAD_WORDS],
    tally: &mut [u64; TALLY_WORDS],
    bytes: &mut [u8],
) -> u64
    ensures { Serves table.old journal.old [] bytes.old head.old
        tally.old restart result table.new journal.new head.new tally.new
        × (bytes.new
        ≡ bytes_after table.old journal.old [] bytes.old head.old
        tally.old restart) }
{
    cechnuol::store::cechnuol_restart(table, journal, head, tally, bytes)
}

// Commits the list that the words are.
#[unsafe(no_mangle)]
pub extern "C" fn cechnuol_commit(
    table: &mut [u64],
    journal: &mut [u64],
    head: &mut [u64; HEAD_WORDS],
    tally: &mut [u64; TALLY_WORDS],
    words: &[u64],
) -> u64
    ensures { Serves table.old journal.old words.now [] head.old
        tally.old commit result table.new journal.new head.new tally.new
        × (words.now
        ≡ words_after table.old journal.old words.now [] head.old
        tally.old commit) }
{
    cechnuol::store::cechnuol_commit(table, journal, head, tally, words)
}

// Goes back to a state.
#[unsafe(no_mangle)]
pub extern "C" fn cechnuol_roll_back(
    table: &mut [u64],
    journal: &mut [u64],
    head: &mut [u64; HEAD_WORDS],
    tally: &mut [u64; TALLY_WORDS],
    state: u32,
) -> u64
    ensures { Serves table.old journal.old [] [] head.old tally.old
        (roll_back state) result table.new journal.new head.new tally.new }
{
    cechnuol::store::cechnuol_roll_back(table, journal, head, tally, state)
}

// Makes the table the map at a state.
#[unsafe(no_mangle)]
pub extern "C" fn cechnuol_flush(
    table: &mut [u64],
    journal: &mut [u64],
    head: &mut [u64; HEAD_WORDS],
    tally: &mut [u64; TALLY_WORDS],
    state: u32,
) -> u64
    ensures { Serves table.old journal.old [] [] head.old tally.old
        (flush state) result table.new journal.new head.new tally.new }
{
    cechnuol::store::cechnuol_flush(table, journal, head, tally, state)
}

// Writes the price of an offer at a state to `price`, or finds none, whoever calls; and to `since` the state to which the last step
// naming the offer leads, or that the table answered.
#[unsafe(no_mangle)]
pub extern "C" fn cechnuol_look_up(
    table: &[u64],
    journal: &[u64],
    head: &[u64; HEAD_WORDS],
    caller: u32,
    offer: u32,
    state: u32,
    price: &mut u64,
    since: &mut u64,
) -> u64
    ensures { Tells table.now journal.now [] [] head.now (look_up caller offer state) result
        price.new price.old
        × TellsSince table.now journal.now [] [] head.now (look_up caller offer state)
        since.new since.old }
{
    cechnuol::store::cechnuol_look_up(table, journal, head, caller, offer, state, price, since)
}

// Issues a read of the list that the words are, in a slot of the caller's, and fills it.
#[unsafe(no_mangle)]
pub extern "C" fn cechnuol_issue(
    table: &mut [u64],
    journal: &mut [u64],
    head: &mut [u64; HEAD_WORDS],
    tally: &mut [u64; TALLY_WORDS],
    caller: u32,
    slot: usize,
    words: &mut [u64],
) -> u64
    ensures { Serves table.old journal.old words.old [] head.old
        tally.old (issue caller slot) result table.new journal.new head.new tally.new
        × (words.new
        ≡ words_after table.old journal.old words.old [] head.old
        tally.old (issue caller slot)) }
{
    cechnuol::store::cechnuol_issue(table, journal, head, tally, caller, slot, words)
}

// Forwards a read of the caller's to a state; the words are the read set.
#[unsafe(no_mangle)]
pub extern "C" fn cechnuol_forward(
    table: &mut [u64],
    journal: &mut [u64],
    head: &mut [u64; HEAD_WORDS],
    tally: &mut [u64; TALLY_WORDS],
    caller: u32,
    slot: usize,
    state: u32,
    words: &mut [u64],
) -> u64
    ensures { Serves table.old journal.old words.old [] head.old
        tally.old (forward caller slot state) result table.new journal.new head.new tally.new
        × (words.new
        ≡ words_after table.old journal.old words.old [] head.old
        tally.old (forward caller slot state)) }
{
    cechnuol::store::cechnuol_forward(table, journal, head, tally, caller, slot, state, words)
}

// Closes a slot of the caller's (document 01: drop).
#[unsafe(no_mangle)]
pub extern "C" fn cechnuol_release(
    table: &mut [u64],
    journal: &mut [u64],
    head: &mut [u64; HEAD_WORDS],
    tally: &mut [u64; TALLY_WORDS],
    caller: u32,
    slot: usize,
) -> u64
    ensures { Serves table.old journal.old [] [] head.old tally.old
        (release caller slot) result table.new journal.new head.new tally.new }
{
    cechnuol::store::cechnuol_release(table, journal, head, tally, caller, slot)
}
