// The calls that are served without the dispatch: a clear, which is lent no words and no bytes, and a commit and a load, whose words or
// bytes are input alone, which they are lent to read. Each is a function of its own, since each is lent other memory.
ghost use Rattle.std.specs.Prelude.{[]};
ghost use Rattle.answers.specs.declared.call.Call.TheVariants.{Step as StepOf, Reset as ResetOf};
ghost use Rattle.answers.specs.declared.call.Reset.TheVariants.{Clear as ClearOf, Load as LoadOf};
ghost use Rattle.answers.specs.declared.call.Step.TheVariants.{Commit as CommitOf};
ghost use Rattle.calls.specs.Lent.{lent};
ghost use Rattle.unit.specs.Serve.{Replies, reply};

use answers::answer::Answer;
use answers::call::{Call, Format, Reset, Step};
use answers::ground::Ground;
use answers::tally::{Tally, tally_after};
use calls::done;
use commits::commit;
use layout::head::Head;
use snapshot::clear::clear;
use snapshot::load::load;

// Serves a clear.
pub fn serve_clear(
    tally: &mut Tally,
    table: &mut [u64],
    journal: &mut [u64],
    head: &mut Head,
    depth: u32,
) -> Result<Answer, Ground>
    ensures { Replies tally.old (lent table.old journal.old [] [] head.old) (ResetOf (ClearOf depth)) (reply result head.new)
        tally.new table.new journal.new [] [] }
{
    let (checkpoint, tip) = (head.checkpoint, head.tip);
    let answer = done(clear(table, journal, head, depth));
    *tally = tally_after(
        *tally,
        checkpoint,
        tip,
        Call::Reset(Reset::Clear(depth)),
        answer,
    );
    answer
}

// Serves a commit of the list.
pub fn serve_commit(
    tally: &mut Tally,
    table: &[u64],
    journal: &mut [u64],
    list: &[u64],
    head: &mut Head,
) -> Result<Answer, Ground>
    ensures { Replies tally.old (lent table.now journal.old list.now [] head.old) (StepOf CommitOf) (reply result head.new)
        tally.new table.now journal.new list.now [] }
{
    let (checkpoint, tip) = (head.checkpoint, head.tip);
    let answer = done(commit(table, journal, head, list));
    *tally = tally_after(*tally, checkpoint, tip, Call::Step(Step::Commit), answer);
    answer
}

// Serves a load of the bytes.
pub fn serve_load(
    tally: &mut Tally,
    table: &mut [u64],
    journal: &mut [u64],
    bytes: &[u8],
    head: &mut Head,
    depth: u32,
    format: Format,
) -> Result<Answer, Ground>
    ensures { Replies tally.old (lent table.old journal.old [] bytes.now head.old) (ResetOf (LoadOf depth format)) (reply result head.new)
        tally.new table.new journal.new [] bytes.now }
{
    let (checkpoint, tip) = (head.checkpoint, head.tip);
    let answer = done(load(table, journal, head, depth, format, bytes));
    *tally = tally_after(
        *tally,
        checkpoint,
        tip,
        Call::Reset(Reset::Load(depth, format)),
        answer,
    );
    answer
}
