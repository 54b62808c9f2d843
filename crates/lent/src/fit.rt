// Whether the words of a head are fit to be lent to a call, and the answer where they are not.
ghost use Rattle.std.specs.Prelude.{◌≡◌};
ghost use Rattle.answers.specs.Answers.{Gives};
ghost use Rattle.lent.specs.Lent.{reset_tests, tests_store, is_fit, unfit};

use answers::answer::Answer;
use answers::call::{Call, Reset};
use answers::ground::Ground;
use head_words::{HEAD_WORDS, is_head};
use layout::clauses::lengths_fit;

// Whether a call that makes a store anew tests the one that was there.
fn reset_tests(reset: Reset) -> bool
    ensures { result ≡ reset_tests reset }
{
    match reset {
        Reset::Clear(_) => false,
        Reset::Load(_, _) => false,
        Reset::Restart => true,
    }
}

// Whether the call tests the store for soundness.
fn tests_store(call: Call) -> bool
    ensures { result ≡ tests_store call }
{
    match call {
        Call::Reset(reset) => reset_tests(reset),
        Call::Step(_) => true,
        Call::Read(_) => true,
        Call::Ask(_) => true,
    }
}

// Whether the words fit the head's fields, where the call tests the store.
pub fn is_fit(head: &[u64; HEAD_WORDS], call: Call) -> bool
    ensures { result ≡ is_fit head.now call }
{
    if !tests_store(call) {
        return true;
    }
    is_head(head)
}

// The answer where the words do not fit.
pub fn unfit_answer(table: usize, journal: usize) -> Result<Answer, Ground>
    ensures { Gives result (unfit table journal) }
{
    if lengths_fit(table, journal) {
        return Err(Ground::Unsound);
    }
    Err(Ground::Lengths)
}
