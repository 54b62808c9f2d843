// The calls that change nothing of a store: they are lent it to read, and memory for what they write.
ghost use Rattle.calls.specs.Lent.{lent, Performs};
ghost use Rattle.calls.specs.Meaning.{query_left};

use answers::answer::Answer;
use answers::call::Query;
use answers::ground::Ground;
use exports::write::{write_state, write_tip};
use lookups::look_up;
use soundness::StoreRef;

pub fn ask(
    store: StoreRef,
    words: &mut [u64],
    bytes: &mut [u8],
    query: Query,
) -> Result<Answer, Ground>
    ensures { Performs
        (query_left (lent store.entry.table.now store.entry.journal.now words.old bytes.old store.entry.head.now) query)
        result store.entry.table.now store.entry.journal.now words.new bytes.new store.entry.head.now }
{
    match query {
        Query::LookUp(asked) => look_up(store, asked),
        Query::Write(format) => write_tip(store, format, bytes).map(Answer::Count),
        Query::WriteState(format, state) => write_state(store, format, state, bytes).map(
            Answer::Count,
        ),
    }
}
