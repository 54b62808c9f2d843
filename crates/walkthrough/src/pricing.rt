// Two batches of orders, priced on a read set.
use crate::print::{Entries, Told};
use batch::pricing::price_batch;
use orders::Order;
use std::io;

// Where kind and amount stand in an order word. The unit reads such words and makes none.
const KIND: u64 = 1 << (64 - Order::KIND_BITS);

const AMOUNT: u64 = 1 << Order::OFFER_BITS;

const RAISE_5_BY_100: u64 = 2 * KIND + 100 * AMOUNT + 5;

const CUT_7_BY_100: u64 = 3 * KIND + 100 * AMOUNT + 7;

const CUT_7_BY_901: u64 = 3 * KIND + 901 * AMOUNT + 7;

const KEEP_12_SIXTEENTHS_OF_5: u64 = 27 * KIND + 5;

// A batch whose second order fails, so that all of it is refused; and one whose third order sees what the first did. Gives the
// changes of the second, for two offers.
pub(crate) fn price_both(rt: &impl Print, reads: &[u64; 3]) -> io::Result<[u64; 2]> {
    let mut changes = [0u64; 2];
    let refused = price_batch(reads, &[RAISE_5_BY_100, CUT_7_BY_901], &mut changes);
    print!(rt;
        "\n  price the orders (raise offer 5 by 100, cut offer 7 by 901){}",
        Told(refused)
    )?;
    let orders = [RAISE_5_BY_100, CUT_7_BY_100, KEEP_12_SIXTEENTHS_OF_5];
    let accepted = price_batch(reads, &orders, &mut changes);
    print!(rt;
        "\n  price the orders (raise offer 5 by 100, cut offer 7 by 100, keep 12/16 of offer 5){}; gives{}",
        Told(accepted),
        Entries(&changes)
    )?;
    Ok(changes)
}
