// The calls that open and close slots, told apart by `match` as in `perform`.
ghost use Rattle.calls.specs.Lent.{lent, Performs};
ghost use Rattle.calls.specs.Meaning.{read_left};

use crate::done;
use answers::answer::Answer;
use answers::call::Read;
use answers::ground::Ground;
use forwards::forward;
use issues::issue;
use layout::head::Head;
use releases::release;

pub fn read(
    table: &mut [u64],
    journal: &mut [u64],
    words: &mut [u64],
    bytes: &mut [u8],
    head: &mut Head,
    call: Read,
) -> Result<Answer, Ground>
    ensures { Performs
        (read_left (lent table.old journal.old words.old bytes.old head.old) call)
        result table.new journal.new words.new bytes.new head.new }
{
    match call {
        Read::Issue(reader) => done(issue(table, journal, head, reader, words)),
        Read::Forward(reader, state) => done(forward(table, journal, head, reader, state, words)),
        Read::Release(reader) => done(release(table, journal, head, reader)),
    }
}
