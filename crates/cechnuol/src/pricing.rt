// Pricing a batch, for C.
ghost use Rattle.std.specs.Prelude.{◌≡◌, length};
ghost use Rattle.batch.specs.Batches.{batch, answer, output};
ghost use Rattle.lent.specs.Codes.{code_of, value_of};

use batch::pricing::price_batch;
use lent::codes::{code_of, value_of};

// Prices the orders on the read set; the changes go to the start of `out`, and their count to `count`.
pub fn cechnuol_price_batch(reads: &[u64], orders: &[u64], out: &mut [u64], count: &mut u64) -> u64
    ensures { (result ≡ code_of (answer (batch reads.now orders.now (length out.old))))
        × (out.new ≡ output (batch reads.now orders.now (length out.old)) out.old)
        × (count.new
        ≡ value_of (answer (batch reads.now orders.now (length out.old))) count.old) }
{
    let written = price_batch(reads, orders, out);
    *count = value_of(written, *count);
    code_of(written)
}
