// The calls that make a store anew, told apart by `match` as in `perform`.
ghost use Rattle.calls.specs.Lent.{lent, Performs};
ghost use Rattle.calls.specs.Meaning.{reset_left};

use crate::done;
use answers::answer::Answer;
use answers::call::Reset;
use answers::ground::Ground;
use layout::head::Head;
use restarts::restart;
use snapshot::clear::clear;
use snapshot::load::load;

pub fn reset(
    table: &mut [u64],
    journal: &mut [u64],
    words: &mut [u64],
    bytes: &mut [u8],
    head: &mut Head,
    call: Reset,
) -> Result<Answer, Ground>
    ensures { Performs
        (reset_left (lent table.old journal.old words.old bytes.old head.old) call)
        result table.new journal.new words.new bytes.new head.new }
{
    match call {
        Reset::Clear(depth) => done(clear(table, journal, head, depth)),
        Reset::Load(depth, format) => done(load(table, journal, head, depth, format, bytes)),
        Reset::Restart => done(restart(table, journal, head, bytes)),
    }
}
