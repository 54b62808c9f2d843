// The sheet of a map and its state number (document 02, Q-5): prices by row, 32 seats to a row. A state number of 32 bits and a count of
// rows of 32 bits, then for each row its number, a mask of its seats and a price for each set bit, all most significant byte first, in
// bytes that the caller lends.
#![tactic(auto)]

pub mod reading;
mod rows;
pub mod writing;

// The bytes before the rows, the bytes of a row before its prices, and the bytes of a price.
pub const HEADER_BYTES: usize = 8;

pub const ROW_BYTES: usize = 8;

pub const PRICE_BYTES: usize = 4;

pub const SEATS: u32 = 32;

// A row begins with its tag, four bytes that are its number and six zero bits.
const NUMBER_UNIT: u64 = 64;
