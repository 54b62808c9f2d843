// The map at a state that a store holds, worked out in lent memory.
#![tactic(auto)]

pub mod sizes;

ghost use Rattle.std.specs.Prelude.{◌≡◌, ◌+◌, length, take, drop};
ghost use Rattle.layout.specs.States.{map_here};
ghost use Rattle.state_maps.specs.Held.{HeldState, MapRoom, words_to};

use layout::head::Head;
use layout::states::step_index;
use runs::compose_run;
use table::apply;

// Writes the map at a state to the start of `map`, and gives its length. Behind the map, and in `changes`, the words within the room
// that is asked for are left to chance, and those past it stay. The steps from the checkpoint to the state are composed first, so that
// the table's words are passed once.
pub fn map_at(
    table: &[u64],
    journal: &[u64],
    head: Head,
    state: u32,
    changes: &mut [u64],
    map: &mut [u64],
) -> usize
    requires { HeldState table.now journal.now head state × MapRoom head state (length changes.old) (length map.old) }
    ensures { (result ≡ length (map_here table.now journal.now head state))
        × (take result map.new ≡ map_here table.now journal.now head state)
        × (drop (words_to head state) changes.new ≡ drop (words_to head state) changes.old)
        × (drop (head.used + words_to head state) map.new ≡ drop (head.used + words_to head state) map.old) }
{
    let from = step_index(head, head.checkpoint);
    let to = step_index(head, state);
    let count = compose_run(journal, &head.ends, from, to, changes, map);
    apply(&table[..head.used], &changes[..count], map)
}
