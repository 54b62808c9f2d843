// Every call on a store, counted in the tally that its caller lends.
ghost use Rattle.calls.specs.Lent.{lent};
ghost use Rattle.unit.specs.Serve.{Replies, reply};

use answers::answer::Answer;
use answers::call::Call;
use answers::ground::Ground;
use answers::tally::{Tally, tally_after};
use calls::perform::perform;
use layout::head::Head;

// Serves a call, and counts it in the tally.
#[tactic(auto, using(crate::proofs::Serving::served_is))]
pub fn serve(
    tally: &mut Tally,
    table: &mut [u64],
    journal: &mut [u64],
    words: &mut [u64],
    bytes: &mut [u8],
    head: &mut Head,
    call: Call,
) -> Result<Answer, Ground>
    ensures { Replies tally.old
        (lent table.old journal.old words.old bytes.old head.old) call (reply result head.new)
        tally.new table.new journal.new words.new bytes.new }
{
    let (checkpoint, tip) = (head.checkpoint, head.tip);
    let answer = perform(table, journal, words, bytes, head, call);
    *tally = tally_after(*tally, checkpoint, tip, call, answer);
    answer
}
