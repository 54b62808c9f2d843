// A call on memory that a C program lends: with words and bytes, with words alone, and with neither; a clear, a commit and a load, which
// need no dispatch; and a query, which is lent the store to read, where a lookup needs no dispatch either. A call that needs no words or
// no bytes is given none.
ghost use Rattle.std.specs.Prelude.{◌≡◌, []};
ghost use Rattle.answers.specs.declared.call.Query.TheVariants.{LookUp as LookUpOf};
ghost use Rattle.lent.specs.Asked.{clear, commit, load_as};
ghost use Rattle.lent.specs.Lent.{Leaves, Serves, Asks, words_after};

use answers::answer::Answer;
use answers::call::{Call, Format, LookUp, Query};
use answers::ground::Ground;
use calls::ask::ask;
use head_words::{HEAD_WORDS, is_head, unpack};
use lent::codes::code_of;
use lent::fit::{is_fit, unfit_answer};
use lent::storing::{TALLY_WORDS, put_head, put_tally, tally_in};
use lookups::look_up;
use soundness::StoreRef;
use unit::direct::{serve_clear, serve_commit, serve_load};
use unit::serve::serve;

// Serves a call on lent memory.
pub(crate) fn call_on(
    table: &mut [u64],
    journal: &mut [u64],
    words: &mut [u64],
    bytes: &mut [u8],
    head: &mut [u64; HEAD_WORDS],
    tally: &mut [u64; TALLY_WORDS],
    call: Call,
) -> Result<Answer, Ground>
    ensures { Leaves table.old journal.old words.old bytes.old
        head.old tally.old call result table.new journal.new words.new
        bytes.new head.new tally.new }
{
    if !is_fit(head, call) {
        return unfit_answer(table.len(), journal.len());
    }
    let mut left = unpack(head);
    let mut counts = tally_in(tally);
    let answer = serve(&mut counts, table, journal, words, bytes, &mut left, call);
    put_tally(tally, counts);
    put_head(head, answer, left);
    answer
}

// Serves a clear, which asks nothing of the head: the compiler leaves it unread.
pub(crate) fn clear_on(
    table: &mut [u64],
    journal: &mut [u64],
    head: &mut [u64; HEAD_WORDS],
    tally: &mut [u64; TALLY_WORDS],
    depth: u32,
) -> Result<Answer, Ground>
    ensures { Leaves table.old journal.old [] [] head.old tally.old (clear depth) result
        table.new journal.new [] [] head.new tally.new }
{
    let mut left = unpack(head);
    let mut counts = tally_in(tally);
    let answer = serve_clear(&mut counts, table, journal, &mut left, depth);
    put_tally(tally, counts);
    put_head(head, answer, left);
    answer
}

// Serves a commit of a list that is lent to read.
pub(crate) fn commit_on(
    table: &[u64],
    journal: &mut [u64],
    list: &[u64],
    head: &mut [u64; HEAD_WORDS],
    tally: &mut [u64; TALLY_WORDS],
) -> Result<Answer, Ground>
    ensures { Leaves table.now journal.old list.now [] head.old
        tally.old commit result table.now journal.new list.now []
        head.new tally.new }
{
    if !is_head(head) {
        return unfit_answer(table.len(), journal.len());
    }
    let mut left = unpack(head);
    let mut counts = tally_in(tally);
    let answer = serve_commit(&mut counts, table, journal, list, &mut left);
    put_tally(tally, counts);
    put_head(head, answer, left);
    answer
}

// Serves a load of bytes that are lent to read.
pub(crate) fn load_on(
    table: &mut [u64],
    journal: &mut [u64],
    bytes: &[u8],
    head: &mut [u64; HEAD_WORDS],
    tally: &mut [u64; TALLY_WORDS],
    depth: u32,
    format: Format,
) -> Result<Answer, Ground>
    ensures { Leaves table.old journal.old [] bytes.now head.old
        tally.old (load_as format depth) result table.new journal.new [] bytes.now
        head.new tally.new }
{
    let mut left = unpack(head);
    let mut counts = tally_in(tally);
    let answer = serve_load(&mut counts, table, journal, bytes, &mut left, depth, format);
    put_tally(tally, counts);
    put_head(head, answer, left);
    answer
}

// Serves a call that is lent words and no bytes.
pub(crate) fn serve_words(
    table: &mut [u64],
    journal: &mut [u64],
    head: &mut [u64; HEAD_WORDS],
    tally: &mut [u64; TALLY_WORDS],
    words: &mut [u64],
    call: Call,
) -> u64
    ensures { Serves table.old journal.old words.old [] head.old
        tally.old call result table.new journal.new head.new tally.new
        × (words.new
        ≡ words_after table.old journal.old words.old [] head.old
        tally.old call) }
{
    let mut bytes = [0u8; 0];
    let answer = call_on(table, journal, words, &mut bytes, head, tally, call);
    code_of(answer)
}

// Serves a call that is lent neither words nor bytes.
pub(crate) fn serve_store(
    table: &mut [u64],
    journal: &mut [u64],
    head: &mut [u64; HEAD_WORDS],
    tally: &mut [u64; TALLY_WORDS],
    call: Call,
) -> u64
    ensures { Serves table.old journal.old [] [] head.old tally.old
        call result table.new journal.new head.new tally.new }
{
    let mut words = [0u64; 0];
    serve_words(table, journal, head, tally, &mut words, call)
}

// Answers a query on a store that is lent to read.
pub(crate) fn ask_on(
    table: &[u64],
    journal: &[u64],
    words: &mut [u64],
    bytes: &mut [u8],
    head: &[u64; HEAD_WORDS],
    query: Query,
) -> Result<Answer, Ground>
    ensures { Asks table.now journal.now words.old bytes.old
        head.now query result words.new bytes.new }
{
    if !is_head(head) {
        return unfit_answer(table.len(), journal.len());
    }
    let head = &unpack(head);
    ask(
        StoreRef {
            table,
            journal,
            head,
        },
        words,
        bytes,
        query,
    )
}

// Answers a lookup, which is lent neither words nor bytes.
pub(crate) fn look_up_on(
    table: &[u64],
    journal: &[u64],
    head: &[u64; HEAD_WORDS],
    asked: LookUp,
) -> Result<Answer, Ground>
    ensures { Asks table.now journal.now [] [] head.now (LookUpOf asked) result [] [] }
{
    if !is_head(head) {
        return unfit_answer(table.len(), journal.len());
    }
    let head = &unpack(head);
    look_up(
        StoreRef {
            table,
            journal,
            head,
        },
        asked,
    )
}
