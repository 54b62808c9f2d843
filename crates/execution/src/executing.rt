// The execution of a batch's orders, in turn, on a read set. Its offers never change, so an order's position in it stays the one that
// was found. At each position stands the word that orders made of the read set's, if one named its offer.
ghost use Rattle.std.specs.Prelude.{◌≡◌, length};
ghost use Rattle.execution.specs.Executing.{done, priced, after};
ghost use Rattle.execution.specs.Working.{made, Ready};

use answers::ground::Ground;
use orders::effects::effect_of;

// Executes the orders on a read set, each at its position, where it sees what those before it made. The words made are then the changes;
// where an order fails, what `words` holds is left to chance.
pub fn execute(
    reads: &[u64],
    orders: &[u64],
    positions: &[usize],
    words: &mut [Option<u64>],
) -> Result<(), Ground>
    requires { Ready reads.now orders.now positions.now words.old }
    ensures { after result (done (made words.new))
        ≡ priced reads.now orders.now }
{
    for (k, order) in orders.iter().enumerate() {
        let position = positions[k];
        let shown = words[position].unwrap_or(reads[position]);
        words[position] = Some(effect_of(*order, shown)?);
    }
    Ok(())
}

// How many words were made, counted with no branch on them, as `gather` writes them.
pub fn count(words: &[Option<u64>]) -> usize
    ensures { result ≡ length (made words.now) }
{
    let mut n = 0;
    for word in words {
        n += usize::from(word.is_some());
    }
    n
}

// Writes the words made, of which there are as many as `out` has room for. At each word the place of the next one made is stored: with this
// word, or with what stands there. Which words orders made cannot be foretold, and so no iteration branches on it.
pub fn gather(words: &[Option<u64>], out: &mut [u64])
    requires { length out.old ≡ length (made words.now) }
    ensures { out.new ≡ made words.now }
{
    let mut n = 0;
    for word in words {
        if n == out.len() {
            break;
        }
        out[n] = word.unwrap_or(out[n]);
        n += usize::from(word.is_some());
    }
}
