// The counts of a checkpoint, written straight into its payload: those of the leases and the carried ones, each sorted by offset. No offset
// has both, so that they are as many as both are together.
ghost use Rattle.std.specs.Prelude.{◌+◌, ◌*◌, ◌<◌, ◌≤◌, ◌≡◌, ℕ, true, List, length, drop, get_or};
ghost use Rattle.types.specs.Refusal.{done};
ghost use Rattle.types.specs.Table.{answer};
ghost use Rattle.types.specs.Limits.{MAX32};
ghost use Rattle.tables.specs.Merge.{merge};
ghost use Rattle.raw.specs.Bytes.{overwrite};
ghost use Rattle.attempt.specs.Snapshot.{pairs_bytes, encode_into2};
ghost use Rattle.checkpoint.specs.Counts.{counts_of, leased, carried, next_count, NextIs, Storable};

use attempt::pairs;
use types::limits::LEASES;

// What a column of numbers of 32 bits is made of: a `u32` for each in an array of their own, or a `u64` among the words of a table.
pub trait Number: Copy {
    ghost numbers: { List Self → List ℕ };

    // That the one at a place is no longer.
    ghost narrow: { List Self → ℕ → Type 0 };

    // The number at a place.
    fn at(column: &[Self], i: usize) -> u32
        requires narrow { narrow column.now i }
        requires within { i < length (numbers column.now) }
        ensures { result ≡ get_or (numbers column.now) i 0 };
}

impl Number for u32 {
    ghost numbers = { λ column. column };

    ghost narrow = { λ column i. Unit {0} };

    fn at(column: &[u32], i: usize) -> u32 {
        column[i]
    }
}

impl Number for u64 {
    ghost numbers = { λ column. column };

    ghost narrow = { λ column i. get_or column i 0 ≤ MAX32 };

    fn at(column: &[u64], i: usize) -> u32 {
        column[i] as u32
    }
}

// The columns that have the counts: the leases' offsets by place, the slot of each place, and the counts by slot; the carried offsets and
// their counts.
#[derive(Clone, Copy)]
pub struct Columns<'a, T> {
    pub len: usize,
    pub carried_len: usize,
    pub offsets: &'a [u64],
    pub slots: &'a [T],
    pub deliveries: &'a [T],
    pub carried_offsets: &'a [u64],
    pub carried_counts: &'a [T],
}

// The next count, and how many it takes of the leases and of the carried ones.
#[derive(Clone, Copy)]
pub struct NextCount {
    pub offset: u64,
    pub attempt: u32,
    pub left: usize,
    pub right: usize,
}

impl<'a, T: Number> Columns<'a, T> {
    // The count of lease i.
    fn leased(self, i: usize) -> NextCount
        requires { Storable T.numbers T.narrow self × (i < self.len) }
        ensures { result ≡ next_count (get_or self.entry.offsets.now i 0) (get_or (counts_of T.numbers self.entry) i 0) 1 0 }
    {
        let slot = T::at(self.slots, i) as usize % LEASES;
        NextCount {
            offset: self.offsets[i],
            attempt: T::at(self.deliveries, slot),
            left: 1,
            right: 0,
        }
    }

    // The carried count j.
    fn carried(self, j: usize) -> NextCount
        requires { Storable T.numbers T.narrow self × (j < self.carried_len) }
        ensures { result ≡ next_count (get_or self.entry.carried_offsets.now j 0) (get_or (T.numbers self.entry.carried_counts.now) j 0) 0 1 }
    {
        NextCount {
            offset: self.carried_offsets[j],
            attempt: T::at(self.carried_counts, j),
            left: 0,
            right: 1,
        }
    }

    // The lower of lease i and carried count j, where one of them is there.
    fn next(self, i: usize, j: usize) -> NextCount
        requires { Storable T.numbers T.narrow self × (i ≤ self.len) × (j ≤ self.carried_len) × (i + j < self.len + self.carried_len) }
        ensures { NextIs (drop i (leased T.numbers self.entry)) (drop j (carried T.numbers self.entry)) result }
    {
        if self.len <= i {
            return self.carried(j);
        }
        if self.carried_len <= j {
            return self.leased(i);
        }
        if self.offsets[i] < self.carried_offsets[j] {
            return self.leased(i);
        }
        self.carried(j)
    }

    // Writes the pairs of a snapshot that begins at a position.
    fn put_pairs(self, out: &mut [u8], at: usize)
        requires { Storable T.numbers T.narrow self × (at + (5 + 12 * (self.len + self.carried_len)) ≤ length out.old) }
        ensures { out.new ≡ overwrite (at + 5) (pairs_bytes true (merge (leased T.numbers self.entry) (carried T.numbers self.entry))) out.old }
    {
        let count = self.len + self.carried_len;
        let mut i: usize = 0;
        let mut j: usize = 0;
        for k in 0..count {
            let next = self.next(i, j);
            pairs::put_v2(out, at, count, k, next.offset, next.attempt);
            i += next.left;
            j += next.right;
        }
    }

    // Writes their snapshot, in version 2, from a position on.
    pub fn put(self, out: &mut [u8], at: usize)
        requires { Storable T.numbers T.narrow self × (self.len + self.carried_len ≤ 128) × (at + (9 + 12 * (self.len + self.carried_len)) ≤ length out.old) }
        ensures { answer (done (at + (9 + 12 * (self.entry.len + self.entry.carried_len)))) out.new ≡ encode_into2 (merge (leased T.numbers self.entry) (carried T.numbers self.entry)) at out.old }
    {
        let count = self.len + self.carried_len;
        pairs::open_v2(count, out, at);
        self.put_pairs(out, at);
        pairs::seal_v2(count, out, at);
    }
}
