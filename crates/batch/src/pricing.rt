// Pricing a batch: the refusals, the execution, and the output.
ghost use Rattle.std.specs.Prelude.{◌≡◌, length};
ghost use Rattle.answers.specs.Answers.{said_by};
ghost use Rattle.execution.specs.Executing.{done};
ghost use Rattle.execution.specs.Working.{made};
ghost use Rattle.batch.specs.Batches.{batch, answer, output, fitting, said_by_count};

use crate::checking::{BATCH_ORDERS, check_batch};
use answers::answer::Answer;
use answers::ground::Ground;
use execution::executing::{count, execute, gather};
use lists::rules::LIST_WORDS;

// Writes the words that orders made to the start of `out`, where there is room for them.
fn write(words: &[Option<u64>], out: &mut [u64]) -> Result<usize, Ground>
    ensures { (said_by_count result ≡ answer (fitting (length out.old) (done (made words.now))))
        × (out.new ≡ output (fitting (length out.old) (done (made words.now))) out.old) }
{
    let n = count(words);
    if out.len() < n {
        return Err(Ground::OutputShort);
    }
    gather(words, &mut out[..n]);
    Ok(n)
}

// The count of the words that the orders' changes are, written to the start of `out`, or the first ground that turns the batch away.
#[tactic(auto, unfolding(crate::specs::Batches::batch))]
fn price(reads: &[u64], orders: &[u64], out: &mut [u64]) -> Result<usize, Ground>
    ensures { (said_by_count result ≡ answer (batch reads.now orders.now (length out.old)))
        × (out.new ≡ output (batch reads.now orders.now (length out.old)) out.old) }
{
    let mut positions = [0; BATCH_ORDERS];
    check_batch(reads, orders, &mut positions)?;
    let mut memory = [None; LIST_WORDS];
    let words = &mut memory[..reads.len()];
    execute(reads, orders, &positions, words)?;
    write(words, out)
}

// Prices a batch: on a read set, the orders' changes are written to the start of `out`, one word for each offer that
// they name, and the words behind them stay; on a refusal all words stay.
pub fn price_batch(reads: &[u64], orders: &[u64], out: &mut [u64]) -> Result<Answer, Ground>
    ensures { (said_by result ≡ answer (batch reads.now orders.now (length out.old)))
        × (out.new ≡ output (batch reads.now orders.now (length out.old)) out.old) }
{
    price(reads, orders, out).map(Answer::Count)
}
