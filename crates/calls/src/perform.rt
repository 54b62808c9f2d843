// The one place where a call is dispatched.
ghost use Rattle.calls.specs.Lent.{lent, Performs};
ghost use Rattle.calls.specs.Meaning.{performed};

use crate::ask::ask;
use crate::read::read;
use crate::reset::reset;
use crate::step::step;
use answers::answer::Answer;
use answers::call::Call;
use answers::ground::Ground;
use layout::head::Head;
use soundness::StoreRef;

// Performs the call on the store that is lent. The calls are a closed set, and theorems and runs of calls name them by their values, so
// they are told apart by `match`.
pub fn perform(
    table: &mut [u64],
    journal: &mut [u64],
    words: &mut [u64],
    bytes: &mut [u8],
    head: &mut Head,
    call: Call,
) -> Result<Answer, Ground>
    ensures { Performs
        (performed (lent table.old journal.old words.old bytes.old head.old) call)
        result table.new journal.new words.new bytes.new head.new }
{
    match call {
        Call::Reset(reset_call) => reset(table, journal, words, bytes, head, reset_call),
        Call::Step(step_call) => step(table, journal, words, bytes, head, step_call),
        Call::Read(read_call) => read(table, journal, words, bytes, head, read_call),
        Call::Ask(query) => ask(
            StoreRef {
                table,
                journal,
                head,
            },
            words,
            bytes,
            query,
        ),
    }
}
