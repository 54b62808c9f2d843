// The orders of a batch (document 01, "Batches"), one at a time: the order word, and what an order does.
//
// An order word has 64 bits, most significant first a kind of 8 bits, an amount of 25 bits and an
// offer of 31 bits.
#![tactic(auto)]

ghost use Rattle.std.specs.Prelude.{◌≡◌};
ghost use Rattle.orders.specs.Orders.{order_kind, order_amount, order_offer, is_allowed};

use entry::Entry;
use kind::Kind;

pub mod effects;
pub mod kind;

#[derive(Clone, Copy, Debug, PartialEq, Eq)]
pub struct Order;

impl Order {
    pub const KIND_BITS: u32 = 8;

    pub const AMOUNT_BITS: u32 = 25;

    // An order's offer is an entry's.
    pub const OFFER_BITS: u32 = Entry::OFFER_BITS;

    // Where the amount and the kind start, counted from the least significant bit.
    const AMOUNT_AT: u32 = Order::OFFER_BITS;

    const KIND_AT: u32 = 64 - Order::KIND_BITS;

    const AMOUNT_MASK: u64 = (1 << Order::AMOUNT_BITS) - 1;

    const OFFER_MASK: u64 = (1 << Order::OFFER_BITS) - 1;

    pub fn kind_of(order: u64) -> u32
        ensures { result ≡ order_kind order }
    {
        (order >> Order::KIND_AT) as u32
    }

    pub fn amount_of(order: u64) -> u32
        ensures { result ≡ order_amount order }
    {
        ((order >> Order::AMOUNT_AT) & Order::AMOUNT_MASK) as u32
    }

    pub fn offer_of(order: u64) -> u32
        ensures { result ≡ order_offer order }
    {
        (order & Order::OFFER_MASK) as u32
    }
}

// Whether an order may be in a batch: its kind is known, and a withdrawal's amount is 0. Orders of all kinds come mixed, so that a
// branch on the kind could not be foreseen; the tests are joined without one.
#[tactic(auto, unfolding(crate::specs::Orders::kind_named, crate::specs::Orders::is_allowed))]
pub fn is_allowed(order: u64) -> bool
    ensures { result ≡ is_allowed order }
{
    let kind = Kind::try_from(Order::kind_of(order));
    kind.is_ok() & (!matches!(kind, Ok(Kind::Withdraw)) | (Order::amount_of(order) == 0))
}
