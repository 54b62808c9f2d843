// The calls on a store, for C. A caller is 0, the desk, or any other number, the foyer.
ghost use Rattle.std.specs.Prelude.{◌≡◌, []};
ghost use Rattle.lent.specs.Asked.{clear, load, load_sheet, restart, commit, roll_back, flush, issue, forward, release, look_up};
ghost use Rattle.lent.specs.Asked.{write_image, write_state_image, write_sheet, write_state_sheet};
ghost use Rattle.lent.specs.Lent.{Serves, Tells, TellsSince, words_after, bytes_after, bytes_written};

use crate::memory::{
    ask_on, call_on, clear_on, commit_on, load_on, look_up_on, serve_store, serve_words,
};
use answers::call::{Call, Format, LookUp, Query, Read, Reader, Reset, Step};
use head_words::HEAD_WORDS;
use lent::callers::caller_of;
use lent::codes::{code_of, since_of, value_of};
use lent::storing::TALLY_WORDS;

// The empty map as state 0, with a depth.
pub fn cechnuol_clear(
    table: &mut [u64],
    journal: &mut [u64],
    head: &mut [u64; HEAD_WORDS],
    tally: &mut [u64; TALLY_WORDS],
    depth: u32,
) -> u64
    ensures { Serves table.old journal.old [] [] head.old tally.old
        (clear depth) result table.new journal.new head.new tally.new }
{
    let answer = clear_on(table, journal, head, tally, depth);
    code_of(answer)
}

// Loads the image that the bytes are, with a depth.
pub fn cechnuol_load(
    table: &mut [u64],
    journal: &mut [u64],
    head: &mut [u64; HEAD_WORDS],
    tally: &mut [u64; TALLY_WORDS],
    depth: u32,
    bytes: &[u8],
) -> u64
    ensures { Serves table.old journal.old [] bytes.now head.old
        tally.old (load depth) result table.new journal.new head.new tally.new
        × (bytes.now
        ≡ bytes_after table.old journal.old [] bytes.now head.old
        tally.old (load depth)) }
{
    let answer = load_on(table, journal, bytes, head, tally, depth, Format::Image);
    code_of(answer)
}

// Writes the image of the tip to the start of the bytes, and its length to `count`.
pub fn cechnuol_write_image(
    table: &[u64],
    journal: &[u64],
    head: &[u64; HEAD_WORDS],
    bytes: &mut [u8],
    count: &mut u64,
) -> u64
    ensures { Tells table.now journal.now [] bytes.old head.now
        write_image result count.new count.old
        × (bytes.new
        ≡ bytes_written table.now journal.now [] bytes.old head.now write_image) }
{
    let mut words = [0u64; 0];
    let answer = ask_on(
        table,
        journal,
        &mut words,
        bytes,
        head,
        Query::Write(Format::Image),
    );
    *count = value_of(answer, *count);
    code_of(answer)
}

// Writes the image of a state to the start of the bytes, and its length to `count`.
pub fn cechnuol_write_state_image(
    table: &[u64],
    journal: &[u64],
    head: &[u64; HEAD_WORDS],
    state: u32,
    bytes: &mut [u8],
    count: &mut u64,
) -> u64
    ensures { Tells table.now journal.now [] bytes.old head.now
        (write_state_image state) result count.new count.old
        × (bytes.new
        ≡ bytes_written table.now journal.now [] bytes.old head.now
        (write_state_image state)) }
{
    let mut words = [0u64; 0];
    let answer = ask_on(
        table,
        journal,
        &mut words,
        bytes,
        head,
        Query::WriteState(Format::Image, state),
    );
    *count = value_of(answer, *count);
    code_of(answer)
}

// Loads the sheet that the bytes are, with a depth.
pub fn cechnuol_load_sheet(
    table: &mut [u64],
    journal: &mut [u64],
    head: &mut [u64; HEAD_WORDS],
    tally: &mut [u64; TALLY_WORDS],
    depth: u32,
    bytes: &[u8],
) -> u64
    ensures { Serves table.old journal.old [] bytes.now head.old
        tally.old (load_sheet depth) result table.new journal.new head.new tally.new
        × (bytes.now
        ≡ bytes_after table.old journal.old [] bytes.now head.old
        tally.old (load_sheet depth)) }
{
    let answer = load_on(table, journal, bytes, head, tally, depth, Format::Sheet);
    code_of(answer)
}

// Writes the sheet of the tip to the start of the bytes, and its length to `count`.
pub fn cechnuol_write_sheet(
    table: &[u64],
    journal: &[u64],
    head: &[u64; HEAD_WORDS],
    bytes: &mut [u8],
    count: &mut u64,
) -> u64
    ensures { Tells table.now journal.now [] bytes.old head.now
        write_sheet result count.new count.old
        × (bytes.new
        ≡ bytes_written table.now journal.now [] bytes.old head.now write_sheet) }
{
    let mut words = [0u64; 0];
    let answer = ask_on(
        table,
        journal,
        &mut words,
        bytes,
        head,
        Query::Write(Format::Sheet),
    );
    *count = value_of(answer, *count);
    code_of(answer)
}

// Writes the sheet of a state to the start of the bytes, and its length to `count`.
pub fn cechnuol_write_state_sheet(
    table: &[u64],
    journal: &[u64],
    head: &[u64; HEAD_WORDS],
    state: u32,
    bytes: &mut [u8],
    count: &mut u64,
) -> u64
    ensures { Tells table.now journal.now [] bytes.old head.now
        (write_state_sheet state) result count.new count.old
        × (bytes.new
        ≡ bytes_written table.now journal.now [] bytes.old head.now
        (write_state_sheet state)) }
{
    let mut words = [0u64; 0];
    let answer = ask_on(
        table,
        journal,
        &mut words,
        bytes,
        head,
        Query::WriteState(Format::Sheet, state),
    );
    *count = value_of(answer, *count);
    code_of(answer)
}

// Writes the image of the checkpoint to the start of the bytes and loads it back.
pub fn cechnuol_restart(
    table: &mut [u64],
    journal: &mut [u64],
    head: &mut [u64; HEAD_WORDS],
    tally: &mut [u64; TALLY_WORDS],
    bytes: &mut [u8],
) -> u64
    ensures { Serves table.old journal.old [] bytes.old head.old
        tally.old restart result table.new journal.new head.new tally.new
        × (bytes.new
        ≡ bytes_after table.old journal.old [] bytes.old head.old
        tally.old restart) }
{
    let mut words = [0u64; 0];
    let answer = call_on(
        table,
        journal,
        &mut words,
        bytes,
        head,
        tally,
        Call::Reset(Reset::Restart),
    );
    code_of(answer)
}

// Commits the list that the words are.
pub fn cechnuol_commit(
    table: &mut [u64],
    journal: &mut [u64],
    head: &mut [u64; HEAD_WORDS],
    tally: &mut [u64; TALLY_WORDS],
    words: &[u64],
) -> u64
    ensures { Serves table.old journal.old words.now [] head.old
        tally.old commit result table.new journal.new head.new tally.new
        × (words.now
        ≡ words_after table.old journal.old words.now [] head.old
        tally.old commit) }
{
    let answer = commit_on(table, journal, words, head, tally);
    code_of(answer)
}

// Goes back to a state.
pub fn cechnuol_roll_back(
    table: &mut [u64],
    journal: &mut [u64],
    head: &mut [u64; HEAD_WORDS],
    tally: &mut [u64; TALLY_WORDS],
    state: u32,
) -> u64
    ensures { Serves table.old journal.old [] [] head.old tally.old
        (roll_back state) result table.new journal.new head.new tally.new }
{
    serve_store(
        table,
        journal,
        head,
        tally,
        Call::Step(Step::RollBack(state)),
    )
}

// Makes the table the map at a state.
pub fn cechnuol_flush(
    table: &mut [u64],
    journal: &mut [u64],
    head: &mut [u64; HEAD_WORDS],
    tally: &mut [u64; TALLY_WORDS],
    state: u32,
) -> u64
    ensures { Serves table.old journal.old [] [] head.old tally.old
        (flush state) result table.new journal.new head.new tally.new }
{
    serve_store(table, journal, head, tally, Call::Step(Step::Flush(state)))
}

// Writes the price of an offer at a state to `price`, or finds none, whoever calls; and to `since` the state to which the last step
// naming the offer leads, or that the table answered.
pub fn cechnuol_look_up(
    table: &[u64],
    journal: &[u64],
    head: &[u64; HEAD_WORDS],
    caller: u32,
    offer: u32,
    state: u32,
    price: &mut u64,
    since: &mut u64,
) -> u64
    ensures { Tells table.now journal.now [] [] head.now (look_up caller offer state) result
        price.new price.old
        × TellsSince table.now journal.now [] [] head.now (look_up caller offer state)
        since.new since.old }
{
    let asked = LookUp {
        caller: caller_of(caller),
        offer,
        state,
    };
    let answer = look_up_on(table, journal, head, asked);
    *price = value_of(answer, *price);
    *since = since_of(answer, *since);
    code_of(answer)
}

// Issues a read of the list that the words are, in a slot of the caller's, and fills it.
pub fn cechnuol_issue(
    table: &mut [u64],
    journal: &mut [u64],
    head: &mut [u64; HEAD_WORDS],
    tally: &mut [u64; TALLY_WORDS],
    caller: u32,
    slot: usize,
    words: &mut [u64],
) -> u64
    ensures { Serves table.old journal.old words.old [] head.old
        tally.old (issue caller slot) result table.new journal.new head.new tally.new
        × (words.new
        ≡ words_after table.old journal.old words.old [] head.old
        tally.old (issue caller slot)) }
{
    let reader = Reader {
        caller: caller_of(caller),
        slot,
    };
    serve_words(
        table,
        journal,
        head,
        tally,
        words,
        Call::Read(Read::Issue(reader)),
    )
}

// Forwards a read of the caller's to a state; the words are the read set.
pub fn cechnuol_forward(
    table: &mut [u64],
    journal: &mut [u64],
    head: &mut [u64; HEAD_WORDS],
    tally: &mut [u64; TALLY_WORDS],
    caller: u32,
    slot: usize,
    state: u32,
    words: &mut [u64],
) -> u64
    ensures { Serves table.old journal.old words.old [] head.old
        tally.old (forward caller slot state) result table.new journal.new head.new tally.new
        × (words.new
        ≡ words_after table.old journal.old words.old [] head.old
        tally.old (forward caller slot state)) }
{
    let reader = Reader {
        caller: caller_of(caller),
        slot,
    };
    serve_words(
        table,
        journal,
        head,
        tally,
        words,
        Call::Read(Read::Forward(reader, state)),
    )
}

// Closes a slot of the caller's (document 01: drop).
pub fn cechnuol_release(
    table: &mut [u64],
    journal: &mut [u64],
    head: &mut [u64; HEAD_WORDS],
    tally: &mut [u64; TALLY_WORDS],
    caller: u32,
    slot: usize,
) -> u64
    ensures { Serves table.old journal.old [] [] head.old tally.old
        (release caller slot) result table.new journal.new head.new tally.new }
{
    let reader = Reader {
        caller: caller_of(caller),
        slot,
    };
    serve_store(
        table,
        journal,
        head,
        tally,
        Call::Read(Read::Release(reader)),
    )
}
