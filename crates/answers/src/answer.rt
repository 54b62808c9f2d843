// What an accepted call answers. A call gives a `Result`: its answer, or the ground on which it is turned away.

// How fresh a quote is: the state to which the last step naming the offer leads, or that the table answered. The state has 64 bits, so that
// it lies in an answer where a count does, and answers are copied by whole words.
#[derive(Clone, Copy, Debug, PartialEq, Eq)]
pub enum Since {
    State(u64),
    Table,
}

// The price of an offer at a state, or that it has none, and since when. Price 0 is a price.
#[derive(Clone, Copy, Debug, PartialEq, Eq)]
pub struct Quote {
    pub price: Option<u32>,
    pub since: Since,
}

// What an accepted call answers: that it is done, the quote of a lookup, or the count of the bytes written.
#[derive(Clone, Copy, Debug, PartialEq, Eq)]
pub enum Answer {
    Done,
    Quoted(Quote),
    Count(usize),
}
