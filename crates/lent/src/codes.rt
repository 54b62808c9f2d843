// What a C program reads of an answer: a code, a value and a word for since when, with the numbers that include/cechnuol.h names.
ghost use Rattle.std.specs.Prelude.{◌≡◌};
ghost use Rattle.answers.specs.Answers.{said_by_since, said_by};
ghost use Rattle.lent.specs.Codes.{code_of, value_of, since_word, since_of};

use answers::answer::{Answer, Quote, Since};
use answers::ground::Ground;

// The code of a lookup that finds no price.
pub const NO_PRICE: u64 = 100;

// The word that says that the table answered a lookup: no state has this number.
pub const BY_TABLE: u64 = 1 << 32;

// The code of an answer.
pub fn code_of(answer: Result<Answer, Ground>) -> u64
    ensures { result ≡ code_of (said_by answer) }
{
    match answer {
        Ok(Answer::Quoted(Quote { price: None, .. })) => NO_PRICE,
        Ok(_) => 0,
        Err(ground) => u64::from(u32::from(ground)),
    }
}

// The value of an answer, or the one that was there before.
pub fn value_of(answer: Result<Answer, Ground>, old: u64) -> u64
    ensures { result ≡ value_of (said_by answer) old }
{
    match answer {
        Ok(Answer::Done) => 0,
        Ok(
            Answer::Quoted(
                Quote {
                    price: Some(price),
                    ..
                },
            ),
        ) => u64::from(price),
        Ok(Answer::Count(count)) => count as u64,
        _ => old,
    }
}

// Since when as a word. Not `From<Since>`, whose impl could stand only beside `Since` in `answers`: the word for the table is the C
// interface's.
fn since_word(since: Since) -> u64
    ensures { result ≡ since_word (said_by_since since) }
{
    match since {
        Since::State(state) => state,
        Since::Table => BY_TABLE,
    }
}

// Since when, of an accepted call, which the table answered where it is no lookup; or the word that was there before.
pub fn since_of(answer: Result<Answer, Ground>, old: u64) -> u64
    ensures { result ≡ since_of (said_by answer) old }
{
    match answer {
        Ok(Answer::Quoted(quote)) => since_word(quote.since),
        Ok(_) => BY_TABLE,
        Err(_) => old,
    }
}
