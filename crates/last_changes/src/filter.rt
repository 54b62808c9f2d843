// A filter of offers: a cell that is not set says that none of the words noted has an offer of that cell. A read set is
// brought forward over thousands of words of which few have its offers, so most of its searches need not be made.
ghost use Rattle.std.specs.Prelude.{◌≡◌, length};
ghost use Rattle.last_changes.specs.Filter.{cell_of, noted};

use entry::Entry;

// The cells of a filter. Four times the words of a journal: then a word shares its cell with few.
pub const CELLS: usize = 16384;

// The cell of the word's offer.
pub fn filter_cell(word: u64) -> usize
    ensures { result ≡ cell_of word }
{
    (Entry::offer_of(word) as usize) % CELLS
}

// Sets the cells of the words' offers.
pub fn note_offers(words: &[u64], filter: &mut [bool])
    requires { length filter.old ≡ 16384 }
    ensures { filter.new ≡ noted filter.old words.now }
{
    for word in words {
        let cell = filter_cell(*word);
        filter[cell] = true;
    }
}
