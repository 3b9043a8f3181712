// Attempt counts in columns: the count of an offset, one pair more, and two sorted lists of them in one.
ghost use Rattle.std.specs.Prelude.{◌≡◌, take, drop, get_or};
ghost use Rattle.types.specs.Keyed.{entries};
ghost use Rattle.types.specs.Lists.{entry_of, counts_in, ListsCounts};
ghost use Rattle.tables.specs.Search.{Spans};
ghost use Rattle.tables.specs.Carried.{Tidy, CarriesPair};
ghost use Rattle.tables.specs.Merge.{merge, first, head_of, taken, lower, picked};

use crate::Place;
use types::Pair;
use types::lent::AttemptCounts;
use types::limits::{CARRIED, COUNTS};

// The places of a key, one or none, and the count there, 0 where there is none.
#[derive(Clone, Copy)]
pub struct Span {
    pub from: usize,
    pub to: usize,
    pub count: u32,
}

// The first pair of two lists, and how many of each it takes; of both empty, zeros.
#[derive(Clone, Copy)]
pub(crate) struct Pick {
    pub offset: u64,
    pub attempt: u32,
    pub left: usize,
    pub right: usize,
}

// Where a key stands among the first `len` places of two columns, and its count.
pub fn count_of<'a>(keys: &'a [u64], counts: &'a [u32], len: usize, x: u64) -> Span
    ensures { Spans x (take len keys.now) counts.now result }
{
    match crate::find(keys, len, x) {
        Place::Found(at) => Span {
            from: at,
            to: at + 1,
            count: count_at(counts, at),
        },
        Place::Missing(at) => Span {
            from: at,
            to: at,
            count: 0,
        },
    }
}

fn count_at(counts: &[u32], at: usize) -> u32
    ensures { result ≡ get_or counts.now at 0 }
{
    counts.get(at).copied().unwrap_or(0)
}

// The carried counts while pairs are taken in one by one, in the first `len` places of two columns; or there would be more than
// 128.
#[derive(Clone, Copy)]
pub struct Carried {
    pub offsets: [u64; CARRIED],
    pub counts: [u32; CARRIED],
    pub len: usize,
    pub full: bool,
}

// Carries one pair more: its count takes the place of the one that its offset has. A count of 0 says nothing.
pub fn carry_pair(mut carried: Carried, pair: Pair) -> Carried
    requires { Tidy carried }
    ensures { CarriesPair pair carried result }
{
    if carried.full {
        return carried;
    }
    if pair.attempt == 0 {
        return carried;
    }
    let len = carried.len;
    let place = crate::find(&carried.offsets, len, pair.offset);
    let at = match place {
        Place::Found(at) => {
            carried.counts[at] = pair.attempt;
            return carried;
        }
        Place::Missing(at) => at,
    };
    if len == CARRIED {
        carried.full = true;
        return carried;
    }
    crate::insert(&mut carried.offsets, len, at, pair.offset);
    crate::insert(&mut carried.counts, len, at, pair.attempt);
    carried.len = len + 1;
    carried
}

// Merges counts with those in the first `len` places of two columns, the larger count where an offset stands in both: the first
// 192 of them.
pub fn merged<'a>(
    counts: AttemptCounts,
    others: &'a [u64],
    other_counts: &'a [u32],
    len: usize,
) -> AttemptCounts
    ensures { ListsCounts result (take 192 (merge (counts_in counts) (entries (take len others.now) (take len other_counts.now)))) }
{
    let mut offsets = [0u64; COUNTS];
    let mut attempts = [0u32; COUNTS];
    let mut i: usize = 0;
    let mut j: usize = 0;
    let mut k: usize = 0;
    let mut end: usize = COUNTS;
    while k < end {
        let left = pair_at(&counts.offsets, &counts.attempts, counts.len, i);
        let right = pair_at(others, other_counts, len, j);
        let next = next_of(left, right);
        if next.left + next.right == 0 {
            end = k;
        } else {
            offsets[k] = next.offset;
            attempts[k] = next.attempt;
            i += next.left;
            j += next.right;
            k += 1;
        }
    }
    AttemptCounts {
        offsets: offsets,
        attempts: attempts,
        len: k,
    }
}

// What stands at a place of two columns, if they go so far.
fn pair_at<'a>(keys: &'a [u64], counts: &'a [u32], len: usize, i: usize) -> Option<Pair>
    ensures { head_of result ≡ first (drop i (entries (take len keys.now) (take len counts.now))) }
{
    if i < len && i < keys.len() && i < counts.len() {
        return Some(Pair {
            offset: keys[i],
            attempt: counts[i],
        });
    }
    None
}

fn next_of(left: Option<Pair>, right: Option<Pair>) -> Pick
    ensures { result ≡ picked (head_of left) (head_of right) }
{
    match (left, right) {
        (Some(a), Some(b)) => pick_lower(a, b),
        (Some(a), None) => taking(a, 1, 0),
        (None, Some(b)) => taking(b, 0, 1),
        (None, None) => taking(
            Pair {
                offset: 0,
                attempt: 0,
            },
            0,
            0,
        ),
    }
}

fn pick_lower(a: Pair, b: Pair) -> Pick
    ensures { result ≡ lower (entry_of a) (entry_of b) }
{
    if a.offset < b.offset {
        return taking(a, 1, 0);
    }
    if b.offset < a.offset {
        return taking(b, 0, 1);
    }
    let attempt = b.attempt.max(a.attempt);
    taking(Pair { attempt, ..a }, 1, 1)
}

fn taking(pair: Pair, left: usize, right: usize) -> Pick
    ensures { result ≡ taken (entry_of pair) left right }
{
    Pick {
        offset: pair.offset,
        attempt: pair.attempt,
        left,
        right,
    }
}
