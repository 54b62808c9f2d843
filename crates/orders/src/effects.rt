// What one order does (document 01, "Batches"; document 02, Q-3), seen the word that shows its offer's price or none.
ghost use Rattle.std.specs.Prelude.{◌≡◌, ◌+◌, ◌^◌, ◌≤◌, ◌<◌, Some, Ok};
ghost use Rattle.orders.specs.Effects.{sixteenths as sixteenths_of, with_price, raised, lowered, kept, effect, Does};

use crate::Order;
use crate::kind::Kind;
use answers::ground::Ground;
use entry::Entry;

// So many sixteenths of a price, to the nearest unit and a half upward, or the amount if that is more.
#[tactic(auto, unfolding(crate::specs::Effects::sixteenths))]
fn sixteenths(count: u32, amount: u32, price: u32) -> u32
    requires { count ≤ 16 }
    ensures { result ≡ sixteenths_of (15 + count) amount price }
{
    let share = ((u64::from(price) * u64::from(count) + 8) / 16) as u32;
    share.max(amount)
}

// The price that a word shows; ground 9 where it shows none.
#[tactic(auto, unfolding(crate::specs::Effects::with_price))]
fn price_shown(shown: u64) -> Result<u32, Ground>
    ensures { result ≡ with_price (Some shown) (λ price. Ok price) }
{
    if Entry::kind_of(shown) != Entry::PUT {
        return Err(Ground::OrderNoPrice);
    }
    Ok(Entry::price_of(shown))
}

// Raises the price shown by the amount.
#[tactic(auto, unfolding(crate::specs::Effects::with_price, crate::specs::Effects::put_at))]
fn raise(offer: u32, amount: u32, shown: u64) -> Result<u64, Ground>
    requires { offer < 2 ^ 31 }
    ensures { result ≡ raised offer amount (Some shown) }
{
    let price = price_shown(shown)?;
    let sum = price.checked_add(amount).ok_or(Ground::PriceRange)?;
    Ok(Entry::put(offer, sum))
}

// Cuts the price shown by the amount.
#[tactic(auto, unfolding(crate::specs::Effects::with_price, crate::specs::Effects::put_at))]
fn cut(offer: u32, amount: u32, shown: u64) -> Result<u64, Ground>
    requires { offer < 2 ^ 31 }
    ensures { result ≡ lowered offer amount (Some shown) }
{
    let price = price_shown(shown)?;
    let rest = price.checked_sub(amount).ok_or(Ground::PriceRange)?;
    Ok(Entry::put(offer, rest))
}

// Keeps so many sixteenths of the price shown.
#[tactic(auto, unfolding(crate::specs::Effects::with_price, crate::specs::Effects::put_at))]
fn keep(count: u32, offer: u32, amount: u32, shown: u64) -> Result<u64, Ground>
    requires { (count ≤ 16) × (offer < 2 ^ 31) }
    ensures { result ≡ kept (15 + count) offer amount (Some shown) }
{
    let share = sixteenths(count, amount, price_shown(shown)?);
    Ok(Entry::put(offer, share))
}

// The effect of an order where its offer is shown by a word.
#[tactic(auto, unfolding(crate::specs::Orders::kind_named, crate::specs::Effects::put_at, crate::specs::Effects::effect))]
pub fn effect_of(order: u64, shown: u64) -> Result<u64, Ground>
    ensures { Does result (effect order (Some shown)) }
{
    let amount = Order::amount_of(order);
    let offer = Order::offer_of(order);
    match Kind::try_from(Order::kind_of(order))? {
        Kind::Put => Ok(Entry::put(offer, amount)),
        Kind::Withdraw => Ok(Entry::none(offer)),
        Kind::Raise => raise(offer, amount, shown),
        Kind::Cut => cut(offer, amount, shown),
        Kind::Keep(count) => keep(count, offer, amount, shown),
    }
}
