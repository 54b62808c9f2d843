// The head of a store: a value that travels with the calls.

// The most steps that a store holds, and the number of marks, which tell where the steps end.
pub const STEPS: usize = 64;

pub const MARKS: usize = 64;

// The greatest depth that a store can have: how many steps a flush must leave above the state that it goes to.
pub const MOST_DEPTH: u32 = 63;

// The number of slots.
pub const SLOTS: usize = 8;

// The ranges of the lengths lent: table and journal have at least one word.
pub const TABLE_WORDS: usize = 8000;

pub const JOURNAL_WORDS: usize = 4096;

// The most words that the map at a state has: those of the table, and one for each word of the journal.
pub const MAP_WORDS: usize = TABLE_WORDS + JOURNAL_WORDS;

#[derive(Clone, Copy, Debug, PartialEq, Eq)]
pub struct Head {
    // How many words of the table are used: it is lent whole, and the first of the head's words for C (head_words::words_of) is this count.
    pub used: usize,
    // The least of the checkpoint and the numbers of the open slots; steps from there on are held (document 01: floor).
    pub oldest: u32,
    // The number of the state that the table holds (anchor).
    pub checkpoint: u32,
    // The number of the newest state.
    pub tip: u32,
    // Which slots are open (reading places), and the checkpoint at the issue of each; a closed one has 0. Two arrays, as the words for C
    // have them one after the other, of which the theorems of conditions/specs/CLayout.antt speak.
    pub taken: [bool; SLOTS],
    pub issued: [u32; SLOTS],
    // Where each held step ends in the journal (marks), of at most 4,096 words; marks not in use are 0.
    pub ends: [u16; MARKS],
    // How many steps a flush must leave above the state that it goes to (the depth that must stay).
    pub depth: u32,
}
