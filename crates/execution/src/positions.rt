// Where the offers of a batch's orders stand in the read set (document 01, ground 8). Each order is looked for once: the
// execution takes its position from here.
ghost use Rattle.std.specs.Prelude.{◌≡◌, true, ◌≤◌, length};
ghost use Rattle.changes.specs.Lists.{From};
ghost use Rattle.execution.specs.Tests.{list_all, is_read};
ghost use Rattle.execution.specs.Working.{Located};

use entry::Entry;
use lists::search::position;
use orders::Order;

// Whether the read set has the offer of every order. Where it has, the first positions are then theirs, order by order; where it
// has not, what `positions` holds is left to chance.
pub fn find_positions(reads: &[u64], orders: &[u64], positions: &mut [usize]) -> bool
    requires { From 0 reads.now × (length orders.now ≤ length positions.old) }
    ensures { (result ≡ list_all (is_read reads.now) orders.now)
        × (result ≡ true → Located reads.now orders.now positions.new (length orders.now)) }
{
    for (k, order) in orders.iter().enumerate() {
        let offer = Order::offer_of(*order);
        let at = position(reads, offer);
        match reads.get(at) {
            Some(word) if Entry::offer_of(*word) == offer => positions[k] = at,
            _ => return false,
        }
    }
    true
}
