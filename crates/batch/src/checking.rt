// What turns a batch away before any order is executed (document 01, grounds 6 to 8).
ghost use Rattle.std.specs.Prelude.{◌≡◌, ◌≤◌, length, OnOk};
ghost use Rattle.orders.specs.Orders.{is_allowed};
ghost use Rattle.execution.specs.Tests.{list_all};
ghost use Rattle.answers.specs.Answers.{Checks};
ghost use Rattle.batch.specs.Batches.{checked};
ghost use Rattle.execution.specs.Working.{Accepted};

use answers::ground::Ground;
use execution::positions::find_positions;
use lists::rules::is_list;
use orders::is_allowed;

// The most orders of a batch.
pub const BATCH_ORDERS: usize = 64;

fn all_allowed(orders: &[u64]) -> bool
    ensures { result ≡ list_all is_allowed orders.now }
{
    orders.iter().all(|order| is_allowed(*order))
}

// The first ground that turns the batch away, if there is one. Where there is none, the first positions are then those of the
// orders' offers in the read set.
#[tactic(auto, using(changes::proofs::ListTest::list_facts), unfolding(answers::specs::First::first, crate::specs::Batches::checked))]
pub(crate) fn check_batch(
    reads: &[u64],
    orders: &[u64],
    positions: &mut [usize],
) -> Result<(), Ground>
    requires { 64 ≤ length positions.old }
    ensures grounds { Checks result (checked reads.now orders.now) }
    ensures passed { OnOk result (Accepted reads.now orders.now positions.new) }
{
    if !is_list(reads) {
        return Err(Ground::BadList);
    }
    if BATCH_ORDERS < orders.len() {
        return Err(Ground::BadList);
    }
    if !all_allowed(orders) {
        return Err(Ground::BadOrder);
    }
    if !find_positions(reads, orders, positions) {
        return Err(Ground::OfferNotRead);
    }
    Ok(())
}
