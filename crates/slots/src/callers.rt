// What a caller has: its slots, and how many words its lists may have. These are functions and no methods, since `Caller` stands in the
// crate of calls and answers, which knows no slots.
ghost use Rattle.std.specs.Prelude.{◌≡◌, ◌≤◌, OnOk};
ghost use Rattle.answers.specs.Answers.{Checks};
ghost use Rattle.answers.specs.First.{first};
ghost use Rattle.slots.specs.Callers.{has_slot, most_words, long_grounds};

use answers::call::Caller;
use answers::ground::Ground;
use lists::rules::LIST_WORDS;

// The foyer has the slots from this one on, the desk those below it.
pub const FOYER_SLOT: usize = 6;

// The most words that a list or read set of the foyer has.
pub const FOYER_WORDS: usize = 16;

// Whether a slot from 0 to 7 is the caller's.
pub fn has_slot(caller: Caller, slot: usize) -> bool
    ensures { result ≡ has_slot caller slot }
{
    match caller {
        Caller::Desk => slot < FOYER_SLOT,
        Caller::Foyer => FOYER_SLOT <= slot,
    }
}

// The most words that a list or read set of the caller has.
pub fn most_words(caller: Caller) -> usize
    ensures { result ≡ most_words caller }
{
    match caller {
        Caller::Desk => LIST_WORDS,
        Caller::Foyer => FOYER_WORDS,
    }
}

// Whether a list or read set of so many words is too long for the caller.
#[tactic(auto, unfolding(answers::specs::First::first))]
pub fn long_check(caller: Caller, count: usize) -> Result<(), Ground>
    ensures grounds { Checks result (first (long_grounds caller count)) }
    ensures short { OnOk result (count ≤ most_words caller) }
{
    if most_words(caller) < count {
        return Err(Ground::LongList);
    }
    Ok(())
}
