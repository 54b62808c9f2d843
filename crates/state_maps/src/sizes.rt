// How many words lead to a state, and whether smaller buffers have room for its map.
ghost use Rattle.std.specs.Prelude.{◌&&◌, ◌≡◌, ◌+◌, ◌≤◌, leb};
ghost use Rattle.changes.specs.Runs.{start_of};
ghost use Rattle.layout.specs.States.{step_index};
ghost use Rattle.state_maps.specs.Held.{words_to};

use layout::head::Head;
use layout::states::{end_of, step_index};

// The words of the table and of the steps up to which a caller has smaller buffers.
pub const FEW_USED: usize = 512;

pub const FEW_WORDS: usize = 512;

// How many words the steps from the checkpoint to a state have.
pub fn words_to(head: Head, state: u32) -> usize
    requires { (head.oldest ≤ head.checkpoint)
        × (head.checkpoint ≤ state)
        × (state ≤ head.oldest + 64)
        × (start_of head.ends (step_index head head.checkpoint) ≤ start_of head.ends (step_index head state)) }
    ensures { result ≡ words_to head state }
{
    let from = step_index(head, head.checkpoint);
    let to = step_index(head, state);
    end_of(&head.ends, to) - end_of(&head.ends, from)
}

// Whether table and steps have few words.
pub fn are_few(used: usize, words: usize) -> bool
    ensures { result ≡ leb used 512 && leb words 512 }
{
    used <= FEW_USED && words <= FEW_WORDS
}
