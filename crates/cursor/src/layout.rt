// Where each number and each column of a cursor lies among its words; specs/Layout.antt says the same of the list. Each part begins where
// the one before it ends.
use types::limits::RANGES;

// Committed, and how many ranges are ahead.
pub const COMMITTED: usize = 0;

pub const RUNS: usize = 1;

// By place, rising: where each range starts, and where it ends.
pub const STARTS: usize = 2;

pub const ENDS: usize = STARTS + RANGES;

// All of them.
pub const WORDS: usize = ENDS + RANGES;
