// Pricing a batch, as C calls it.
ghost use Rattle.std.specs.Prelude.{◌≡◌, length};
ghost use Rattle.batch.specs.Batches.{batch, answer, output};
ghost use Rattle.lent.specs.Codes.{code_of, value_of};

// Prices the orders on the read set; the changes go to the start of `out`, and their count to `count`.
#[unsafe(no_mangle)]
pub extern "C" fn cechnuol_price_batch(
    reads: &[u64],
    orders: &[u64],
    out: &mut [u64],
    count: &mut u64,
) -> u64
    ensures { (result ≡ code_of (answer (batch reads.now orders.now (length out.old))))
        × (out.new ≡ output (batch reads.now orders.now (length out.old)) out.old)
        × (count.new
        ≡ value_of (answer (batch reads.now orders.now (length out.old))) count.old) }
{
    cechnuol::pricing::cechnuol_price_batch(reads, orders, out, count)
}
