// Where each number and each column of a lease table lies among its words; specs/Layout.antt says the same of the list. Each part begins
// where the one before it ends.
use types::limits::{CARRIED, LEASES};

// Numbers: how many leases there are and how many carried counts, the next generation, the redeliveries since the last flush, and the
// configuration.
pub const LEN: usize = 0;

pub const CARRIED_LEN: usize = 1;

pub const NEXT: usize = 2;

pub const REDELIVERIES: usize = 3;

pub const VISIBILITY: usize = 4;

pub const HARD_CAP: usize = 5;

// By place, rising: the offsets that are leased, and the slot of each. The slots after those in use are free.
pub const OFFSETS: usize = 6;

pub const SLOTS: usize = OFFSETS + LEASES;

// By slot: the leases, in a column for each of their numbers.
pub const GENERATIONS: usize = SLOTS + LEASES;

pub const STARTS: usize = GENERATIONS + LEASES;

pub const DEADLINES: usize = STARTS + LEASES;

pub const DELIVERIES: usize = DEADLINES + LEASES;

pub const WORKERS: usize = DELIVERIES + LEASES;

// By place, rising: the offsets with a carried count, and the counts.
pub const CARRIED_OFFSETS: usize = WORKERS + LEASES;

pub const CARRIED_COUNTS: usize = CARRIED_OFFSETS + CARRIED;

// All of them.
pub const WORDS: usize = CARRIED_COUNTS + CARRIED;
