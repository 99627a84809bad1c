// The limits of a book's numbers, in yen and in lots: numbers too, as the book's cells are (a rule of the project).

// "scheduled receipts (0 to 10^12 lots by participant and issue)"
pub const RECEIPT: u64 = 1000000000000;

pub const NOTICE: u64 = 200000000;

pub const TRADES: u64 = 10000;

// "positions are within 10^13"
pub const POSITION: u64 = 10000000000000;

// "a tally is within 10^11 × runs done"
pub const TALLY: u64 = 100000000000;
