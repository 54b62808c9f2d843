// Where the held steps stand: the one place that tells which of them leads on from a state, and where it lies.
ghost use Rattle.std.specs.Prelude.{◌≡◌, ◌≤◌, length};
ghost use Rattle.changes.specs.Runs.{start_of};
ghost use Rattle.layout.specs.States.{step_index, held_of};

use crate::head::Head;

// Where the step that leads on from a state stands among the held ones.
pub fn step_index(head: Head, state: u32) -> usize
    requires { head.oldest ≤ state }
    ensures { result ≡ step_index head state }
{
    (state - head.oldest) as usize
}

// How many steps are held.
pub fn held_count(head: Head) -> usize
    requires { head.oldest ≤ head.tip }
    ensures { result ≡ held_of head }
{
    step_index(head, head.tip)
}

// Where the step after the first n steps starts.
pub fn end_of(ends: &[u16], n: usize) -> usize
    requires { n ≤ length ends.now }
    ensures { result ≡ start_of ends.now n }
{
    if n == 0 { 0 } else { usize::from(ends[n - 1]) }
}
