// The tally of the steps: what a call counts, and the one place where counts are worked out.
ghost use Rattle.std.specs.Prelude.{◌≡◌, ◌-◌};
ghost use Rattle.answers.specs.Counts.{resets, step_counts, counts_of, count_after, tally_after};

use crate::answer::Answer;
use crate::call::{Call, Step};
use crate::ground::Ground;

// The steps committed, rolled back and flushed since the last clear, load or restart.
#[derive(Clone, Copy, Debug, Default, PartialEq, Eq)]
pub struct Tally {
    pub committed: u64,
    pub rolled_back: u64,
    pub flushed: u64,
}

// Whether the call sets the tally to zero where it is accepted.
fn resets(call: Call) -> bool
    ensures { result ≡ resets call }
{
    matches!(call, Call::Reset(_))
}

// How many states lie from one up to another; none where the other is lower.
fn steps_between(from: u32, to: u32) -> u64
    ensures { result ≡ to - from }
{
    u64::from(to.saturating_sub(from))
}

// The tally of a call on the steps alone, if it is accepted with this checkpoint and tip.
fn step_counts(checkpoint: u32, tip: u32, step: Step) -> Tally
    ensures { result ≡ step_counts checkpoint tip step }
{
    match step {
        Step::Commit => Tally {
            committed: 1,
            ..Tally::default()
        },
        Step::RollBack(state) => Tally {
            rolled_back: steps_between(state, tip),
            ..Tally::default()
        },
        Step::Flush(state) => Tally {
            flushed: steps_between(checkpoint, state),
            ..Tally::default()
        },
    }
}

// The same of any call: only those on the steps count.
fn counts_of(checkpoint: u32, tip: u32, call: Call) -> Tally
    ensures { result ≡ counts_of checkpoint tip call }
{
    match call {
        Call::Step(step) => step_counts(checkpoint, tip, step),
        _ => Tally::default(),
    }
}

// A count after a call, which adds so much to it where it is accepted.
fn count_after(answer: Result<Answer, Ground>, call: Call, count: u64, more: u64) -> u64
    ensures { result ≡ count_after answer call count more }
{
    if answer.is_err() {
        return count;
    }
    if resets(call) {
        return 0;
    }
    count.saturating_add(more)
}

// The tally after a call, from the checkpoint and the tip before it.
pub fn tally_after(
    tally: Tally,
    checkpoint: u32,
    tip: u32,
    call: Call,
    answer: Result<Answer, Ground>,
) -> Tally
    ensures { result ≡ tally_after tally checkpoint tip call answer }
{
    let more = counts_of(checkpoint, tip, call);
    Tally {
        committed: count_after(answer, call, tally.committed, more.committed),
        rolled_back: count_after(answer, call, tally.rolled_back, more.rolled_back),
        flushed: count_after(answer, call, tally.flushed, more.flushed),
    }
}
