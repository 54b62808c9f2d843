// A row's mask: which seats have a price, seat 0 most significant, and where the price of a seat stands.
ghost use Rattle.std.specs.Prelude.{◌≡◌, ◌-◌, ◌^◌, ◌<◌, ◌≤◌};
ghost use Rattle.sheet.specs.Sheet.{set_bits, place_in};

// The bits of the seats before a seat.
#[tactic(auto, using(crate::proofs::Bits::seats_before))]
fn before(seat: u32) -> u32
    requires { seat < 32 }
    ensures { result ≡ 2 ^ 32 - 2 ^ (32 - seat) }
{
    !(0xFFFF_FFFF >> seat)
}

// How many prices of a row precede that of a seat: as many as the mask has set bits before it.
pub fn place(mask: u32, seat: u32) -> usize
    requires { seat < 32 }
    ensures { (result ≡ place_in mask seat) × (result ≤ 32) }
{
    let earlier = mask & before(seat);
    if earlier == 0 {
        // The row's first price, for which no count is waited for.
        return 0;
    }
    earlier.count_ones() as usize
}

// How many prices a row has: one more than precede that of its last seat.
#[tactic(auto, using(crate::proofs::MaskBits::all_prices))]
pub fn prices(mask: u32) -> usize
    requires { 0 < mask }
    ensures { (result ≡ set_bits mask) × (result ≤ 32) }
{
    place(mask, 31 - mask.trailing_zeros()) + 1
}

// The bit of a seat.
#[tactic(auto, using(crate::proofs::Bits::seat_bit))]
pub fn bit(seat: u32) -> u32
    requires { seat < 32 }
    ensures { result ≡ 2 ^ (31 - seat) }
{
    0x8000_0000 >> seat
}
