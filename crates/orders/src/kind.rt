// The kinds of orders, by the numbers that name them in an order word (document 01, "Batches").
ghost use Rattle.orders.specs.Kinds.{Decodes};

use answers::ground::Ground;

// What an order does with the price of its offer.
#[derive(Clone, Copy, Debug, PartialEq, Eq)]
pub enum Kind {
    // 0: puts the amount.
    Put,
    // 1: removes it.
    Withdraw,
    // 2: raises it by the amount.
    Raise,
    // 3: cuts it by the amount.
    Cut,
    // 16 to 31: keeps so many sixteenths of it, from 1 to 16, and no less than the amount.
    Keep(u32),
}

// All other numbers are unknown: ground 7.
impl TryFrom<u32> for Kind {
    type Error = Ground;

    ghost try_from_gives = { Decodes };

    #[tactic(auto, unfolding(crate::specs::Orders::kind_named))]
    fn try_from(number: u32) -> Result<Self, Ground> {
        match number {
            0 => Ok(Kind::Put),
            1 => Ok(Kind::Withdraw),
            2 => Ok(Kind::Raise),
            3 => Ok(Kind::Cut),
            16..=31 => Ok(Kind::Keep(number - 15)),
            _ => Err(Ground::BadOrder),
        }
    }
}
