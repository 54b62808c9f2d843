// The composition of a run of steps that lie one after another, each ending where its mark says.
#![tactic(auto)]

ghost use Rattle.std.specs.Prelude.{◌≡◌, ◌++◌, ◌+◌, ◌-◌, ◌<◌, ◌≤◌, length, take, drop};
ghost use Rattle.changes.specs.Calculus.{compose as composed};
ghost use Rattle.changes.specs.Runs.{start_of, step_of, run_words, Marked};
ghost use Rattle.runs.specs.Composed.{RunRoom, Composed};

use composing::compose;
use words::copy;

// Where a step starts: at the end of the step before it.
fn start_of(ends: &[u16], step: usize) -> usize
    requires { step ≤ length ends.now }
    ensures { result ≡ start_of ends.now step }
{
    if step == 0 {
        return 0;
    }
    usize::from(ends[step - 1])
}

// Copies the words of a step to the start of `out`, and gives their count; the words behind them stay.
fn copy_step(words: &[u64], ends: &[u16], step: usize, out: &mut [u64]) -> usize
    requires { Marked words.now ends.now (step + 1) × (run_words ends.now step (step + 1) ≤ length out.old) }
    ensures { (result ≡ run_words ends.now step (step + 1))
        × (out.new ≡ step_of words.now ends.now step ++ drop result out.old) }
{
    let start = start_of(ends, step);
    let end = start_of(ends, step + 1);
    copy(&words[start..end], out);
    end - start
}

// Composes the steps from `from` up to `to`, exclusive, into the start of `out`, and gives the count: the run is
// halved until single steps remain, and the halves are composed. Both buffers have room for the words of the
// steps; what they hold there besides the composition is left open, and the words past that room stay.
pub fn compose_run(
    words: &[u64],
    ends: &[u16],
    from: usize,
    to: usize,
    out: &mut [u64],
    spare: &mut [u64],
) -> usize
    requires { RunRoom words.now ends.now from to (length out.old) (length spare.old) }
    ensures { Composed words.now ends.now from to out.old spare.old
        out.new spare.new result }
{
    if to <= from {
        return 0;
    }
    if to == from + 1 {
        return copy_step(words, ends, from, out);
    }
    let middle = from + (to - from) / 2;
    let left = compose_run(words, ends, from, middle, spare, out);
    let right = compose_run(words, ends, middle, to, &mut spare[left..], out);
    let halves = &spare[..];
    compose(&halves[..left], &halves[left..left + right], out)
}
