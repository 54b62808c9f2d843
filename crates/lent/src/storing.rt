// What a call leaves of head and tally, put into their words.
ghost use Rattle.std.specs.Prelude.{◌≡◌, cond};
ghost use Rattle.answers.specs.Answers.{is_accepted};
ghost use Rattle.head_words.specs.HeadWords.{words_of};
ghost use Rattle.lent.specs.Lent.{tally_of, tally_words};

use answers::answer::Answer;
use answers::ground::Ground;
use answers::tally::Tally;
use head_words::{HEAD_WORDS, pack};
use layout::head::Head;

// How many words a tally has.
pub const TALLY_WORDS: usize = 3;

// The tally that the words hold.
pub fn tally_in(words: &[u64; TALLY_WORDS]) -> Tally
    ensures { result ≡ tally_of words.now }
{
    Tally {
        committed: words[0],
        rolled_back: words[1],
        flushed: words[2],
    }
}

// Puts the counts into their words.
pub fn put_tally(words: &mut [u64; TALLY_WORDS], tally: Tally)
    ensures { words.new ≡ tally_words tally }
{
    *words = [tally.committed, tally.rolled_back, tally.flushed];
}

// Puts the head that a call left into its words, where the call was accepted: a refusal leaves them as they came, whatever they are.
pub fn put_head(words: &mut [u64; HEAD_WORDS], answer: Result<Answer, Ground>, head: Head)
    ensures { words.new ≡ cond (is_accepted answer) (words_of head) words.old }
{
    if answer.is_ok() {
        pack(head, words);
    }
}
