// The calls that add steps, take them back and flush them, told apart by `match` as in `perform`.
ghost use Rattle.calls.specs.Lent.{lent, Performs};
ghost use Rattle.calls.specs.Meaning.{step_left};

use crate::done;
use answers::answer::Answer;
use answers::call::Step;
use answers::ground::Ground;
use commits::commit;
use flushes::flush;
use layout::head::Head;
use rollbacks::roll_back;

pub fn step(
    table: &mut [u64],
    journal: &mut [u64],
    words: &mut [u64],
    bytes: &mut [u8],
    head: &mut Head,
    call: Step,
) -> Result<Answer, Ground>
    ensures { Performs
        (step_left (lent table.old journal.old words.old bytes.old head.old) call)
        result table.new journal.new words.new bytes.new head.new }
{
    match call {
        Step::Commit => done(commit(table, journal, head, words)),
        Step::RollBack(state) => done(roll_back(table, journal, head, state)),
        Step::Flush(state) => done(flush(table, journal, head, state)),
    }
}
