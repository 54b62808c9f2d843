// What the program prints of answers, entries and bytes, in words. A line begins with its newline, so that what is printed next may go on
// with it, and what is written at once is one text or one number: a write that fails loses no more.
use answers::answer::{Answer, Quote, Since};
use answers::ground::Ground;
use entry::Entry;
use std::fmt;

// Whether a call was accepted, or why not: the grounds that the day meets in words, any other by its number alone.
#[derive(Clone, Copy)]
pub(crate) struct Told(pub(crate) Result<Answer, Ground>);

impl fmt::Display for Told {
    fn fmt<W: fmt::Write>(&self, f: &mut fmt::Formatter<W>) -> fmt::Result {
        match self.0 {
            Ok(_) => write!(f, ": accepted"),
            Err(Ground::BadList) => {
                write!(f, ": refused on ground 6, the offers of a list must rise")
            }
            Err(Ground::PriceRange) => {
                write!(
                    f,
                    ": refused on ground 10, a price must stay from 0 to 4294967295"
                )
            }
            Err(Ground::StateRange) => {
                write!(
                    f,
                    ": refused on ground 11, the state must be from checkpoint to newest"
                )
            }
            Err(ground) => write!(f, ": refused on ground {}", u32::from(ground)),
        }
    }
}

// The entry of a word: an offer, and its price or that it has none.
#[derive(Clone, Copy)]
struct Shown(u64);

impl fmt::Display for Shown {
    fn fmt<W: fmt::Write>(&self, f: &mut fmt::Formatter<W>) -> fmt::Result {
        let word = self.0;
        write!(f, "offer {}", Entry::offer_of(word))?;
        if Entry::kind_of(word) == Entry::PUT {
            write!(f, " at {}", Entry::price_of(word))
        } else {
            write!(f, " not on sale")
        }
    }
}

// The entries of words, a space before the first and commas between them.
#[derive(Clone, Copy)]
pub(crate) struct Entries<'a>(pub(crate) &'a [u64]);

impl fmt::Display for Entries<'_> {
    fn fmt<W: fmt::Write>(&self, f: &mut fmt::Formatter<W>) -> fmt::Result {
        for (position, word) in self.0.iter().enumerate() {
            let before = if position == 0 { " " } else { ", " };
            write!(f, "{before}{}", Shown(*word))?;
        }
        Ok(())
    }
}

// Since when an offer stands as it is quoted, in brackets behind it.
#[derive(Clone, Copy)]
struct Freshness(Since);

impl fmt::Display for Freshness {
    fn fmt<W: fmt::Write>(&self, f: &mut fmt::Formatter<W>) -> fmt::Result {
        match self.0 {
            Since::State(state) => write!(f, " (since state {state}")?,
            Since::Table => write!(f, " (by the table")?,
        }
        write!(f, ")")
    }
}

// What a lookup of an offer answers: its price or that it has none, and since when.
#[derive(Clone, Copy)]
pub(crate) struct Quoted {
    pub(crate) offer: u32,
    pub(crate) answer: Result<Answer, Ground>,
}

impl fmt::Display for Quoted {
    fn fmt<W: fmt::Write>(&self, f: &mut fmt::Formatter<W>) -> fmt::Result {
        let offer = self.offer;
        match self.answer {
            Ok(Answer::Quoted(Quote { price, since })) => {
                let word = match price {
                    Some(price) => Entry::put(offer, price),
                    None => Entry::none(offer),
                };
                write!(f, "{}{}", Shown(word), Freshness(since))
            }
            answer => write!(f, "{}", Told(answer)),
        }
    }
}

// The bytes below 16 in two digits, each put at once.
const ONE_DIGIT: [&str; 16] = [
    "00", "01", "02", "03", "04", "05", "06", "07", "08", "09", "0a", "0b", "0c", "0d", "0e", "0f",
];

// Bytes in hexadecimal, a space before each.
#[derive(Clone, Copy)]
pub(crate) struct Hex<'a>(pub(crate) &'a [u8]);

impl fmt::Display for Hex<'_> {
    fn fmt<W: fmt::Write>(&self, f: &mut fmt::Formatter<W>) -> fmt::Result {
        for byte in self.0 {
            write!(f, " ")?;
            if *byte < 16 {
                write!(f, "{}", ONE_DIGIT[usize::from(*byte)])?;
            } else {
                write!(f, "{byte:x}")?;
            }
        }
        Ok(())
    }
}
