// The one place where a call is dispatched, and one for each group of calls. Each is lent what the call may need: the store, words and
// bytes.
#![tactic(auto)]

pub mod ask;
pub mod perform;
pub mod read;
pub mod reset;
pub mod step;

ghost use Rattle.std.specs.Prelude.{◌≡◌, Ok};
ghost use Rattle.answers.specs.Answers.{answered};
ghost use Rattle.answers.specs.declared.answer.Answer.TheVariants.{Done};

use answers::answer::Answer;
use answers::ground::Ground;

// The answer of a call that says no more than that it is done.
pub fn done(made: Result<(), Ground>) -> Result<Answer, Ground>
    ensures { result ≡ answered made (Ok Done) }
{
    made.map(|()| Answer::Done)
}
