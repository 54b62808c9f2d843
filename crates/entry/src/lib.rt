// The entry word (document 01, "What the unit holds"): 64 bits, most significant first a kind of
// 1 bit, an offer of 31 bits and a price of 32 bits. Kind 1 puts the price, or shows it in a table or
// a read set; kind 0 removes it, or shows that there is none, and its price field is 0.
#![tactic(auto)]

ghost use Rattle.std.specs.Prelude.{◌≡◌, ◌*◌, ◌%◌, ◌^◌, ◌<◌, ◌&&◌, ◌==◌, nat_lt};
ghost use Rattle.entry.specs.Word.{kind_of, offer_of, price_of, key_of, put_of, none_of, is_put, Put, is_valid, bit_of, top_of};

use std::num::wrapping_sub_u32;

#[derive(Clone, Copy)]
pub struct Entry;

impl Entry {
    // The put mark: the kind that puts a price, or shows one. A kind is no enum, but a bit of the word that C programs lend and read
    // (include/cechnuol.h, "Entry words and lists").
    pub const PUT: u32 = 1;

    pub const KIND_BITS: u32 = 1;

    pub const OFFER_BITS: u32 = 31;

    pub const PRICE_BITS: u32 = 32;

    // Where the offer and the kind start, counted from the least significant bit.
    const OFFER_AT: u32 = Entry::PRICE_BITS;

    const KIND_AT: u32 = 64 - Entry::KIND_BITS;

    const OFFER_MASK: u64 = (1 << Entry::OFFER_BITS) - 1;

    const PRICE_MASK: u64 = (1 << Entry::PRICE_BITS) - 1;

    // The flag of a test that passes: the top bit alone of a number of 32 bits.
    pub const FLAG: u32 = 1 << Entry::OFFER_BITS;

    // The largest key of a word of kind 0.
    pub const LAST_REMOVAL: u64 = Entry::OFFER_MASK;

    // The offer's bits in their place.
    const OFFER_FIELD: u64 = (1 << Entry::KIND_AT) - (1 << Entry::OFFER_AT);

    pub fn kind_of(word: u64) -> u32
        ensures { result ≡ kind_of word }
    {
        (word >> Entry::KIND_AT) as u32
    }

    // Whether a word is of kind 1: it puts a price on its offer, or shows it.
    pub fn is_put(word: u64) -> bool
        ensures { result ≡ is_put word }
    {
        Entry::kind_of(word) == Entry::PUT
    }

    pub fn offer_of(word: u64) -> u32
        ensures { result ≡ offer_of word }
    {
        ((word >> Entry::OFFER_AT) & Entry::OFFER_MASK) as u32
    }

    pub fn price_of(word: u64) -> u32
        ensures { result ≡ price_of word }
    {
        (word & Entry::PRICE_MASK) as u32
    }

    // Kind and offer as one number: among the keys, those of words of kind 1 lie above all others, in the order of their offers.
    pub fn key_of(word: u64) -> u64
        ensures { (result ≡ key_of word) × (result < 2 ^ 32) }
    {
        word >> Entry::OFFER_AT
    }

    // The word that removes an offer's price, or shows that it has none. An offer of 2^31 or more is cut to
    // its field, so that it never runs into the kind.
    pub fn none(offer: u32) -> u64
        ensures { result ≡ none_of (offer % 2 ^ 31) }
    {
        ((offer as u64) & Entry::OFFER_MASK) << Entry::OFFER_AT
    }

    // The word that puts a price on an offer, or shows it; the offer is cut to its field.
    pub fn put(offer: u32, price: u32) -> u64
        ensures { result ≡ put_of (offer % 2 ^ 31) price }
    {
        Entry::none(offer) | (price as u64) | ((Entry::PUT as u64) << Entry::KIND_AT)
    }

    // The offer at its place in the word, all other bits zero: a single mask, and words compare by it as by their offers.
    pub fn offer_field(word: u64) -> u64
        ensures { result ≡ offer_of word * 2 ^ 32 }
    {
        word & Entry::OFFER_FIELD
    }

    // Kind and offer as a number of 32 bits, whose top bit is the kind.
    fn upper_of(word: u64) -> u32
        ensures { result ≡ key_of word }
    {
        (word >> Entry::OFFER_AT) as u32
    }

    // The bit of a flag. A flag is a number of 32 bits whose top bit says whether a test passes: a scan joins flags by `&` and looks at
    // the bit of many at once, so that no word of it branches, and the compiler takes four of such numbers at a time.
    pub fn flag_bit(flag: u32) -> u32
        ensures { result ≡ top_of flag }
    {
        flag >> Entry::OFFER_BITS
    }

    // The flag of a word whose price field is 0: a choice between two numbers, which the compiler makes for several words at a time.
    fn no_price_flag(word: u64) -> u32
        ensures { top_of result ≡ bit_of (price_of word == 0) }
    {
        if Entry::price_of(word) == 0 {
            return Entry::FLAG;
        }
        0
    }

    // The flag of a valid word: of kind 1, or with a price field of 0.
    pub fn valid_flag(word: u64) -> u32
        ensures { top_of result ≡ bit_of (is_valid word) }
    {
        Entry::upper_of(word) | Entry::no_price_flag(word)
    }

    // The flag of a valid word whose offer lies above that of the word before it: then the difference of the offers wraps.
    pub fn follows(before: u64, word: u64) -> u32
        ensures { top_of result ≡ bit_of (is_valid word && nat_lt (offer_of before) (offer_of word)) }
    {
        Entry::valid_flag(word) & wrapping_sub_u32(Entry::offer_of(before), Entry::offer_of(word))
    }

    // The flag of a word of kind 1 whose offer lies above that of the word before it. Where the word before is of kind 0, it says
    // nothing.
    pub fn climbs(before: u64, word: u64) -> u32
        ensures { Put before → top_of result ≡ bit_of (is_put word && nat_lt (offer_of before) (offer_of word)) }
    {
        Entry::upper_of(word) & wrapping_sub_u32(Entry::upper_of(before), Entry::upper_of(word))
    }
}
