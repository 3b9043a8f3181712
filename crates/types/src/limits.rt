// The limits (SPEC.md, "Numbers").

// The largest u64, MAX, and the largest u32.
pub const MAX: u64 = 18446744073709551615;

pub const MAX32: u32 = 4294967295;

// Leases in a table, carried counts in a table, and attempt counts of both.
pub const LEASES: usize = 64;

pub const CARRIED: usize = 128;

pub const COUNTS: usize = LEASES + CARRIED;

// Ranges ahead of a cursor.
pub const RANGES: usize = 128;

// Pairs in a snapshot.
pub const PAIRS: usize = 128;

// Workers, numbered from 0.
pub const WORKERS: usize = 8;
