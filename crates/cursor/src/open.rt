// The reverse of what is settled: the unsettled stretches between two numbers, and the nearest unsettled offset. Ranges don't touch, so
// there is just one stretch before each: from the end before it up to its start. The first is found by a search, their number by
// another, and no range before the first or behind the last is looked at.
ghost use Rattle.std.specs.Prelude.{◌≡◌, ◌≤◌, min, max, ◌∷◌, length, take, get_or};
ghost use Rattle.types.specs.Identifiers.{offset};
ghost use Rattle.types.specs.Sorted.{upTo};
ghost use Rattle.types.specs.Refused.{as_is};
ghost use Rattle.types.specs.Table.{answer};
ghost use Rattle.cursor.specs.Ranges.{range};
ghost use Rattle.cursor.specs.View.{ack_cursor, view, Sound, Whole};
ghost use Rattle.cursor.specs.Unsettled.{stretches, nearest_open, open_between, open_numbers};

use crate::in_place::{end_before, partition_point};
use crate::{AckCursor, Range};
use types::Offset;
use types::refusals::Refusal;

// Where the stretches begin, and how many they are.
#[derive(Clone, Copy)]
struct Gaps {
    first: usize,
    count: usize,
}

impl AckCursor {
    // Lists the unsettled stretches within [a, b) from the first place on, and answers their number; later places stay. They rise, none
    // touches the next, and they are clipped at both bounds. Refused, with the list as it was: a above b (32); then where they don't
    // fit (20).
    pub fn open_between(self, a: u64, b: u64, out: &mut [Range]) -> Result<usize, Refusal>
        requires { Sound self }
        ensures { answer (as_is result) out.new ≡ open_between (view self) a b out.old }
    {
        if b < a {
            return Err(Refusal::BoundsReversed);
        }
        let gaps = find_open(self.committed, &self.starts, &self.ends, self.runs, a, b);
        let first = gaps.first;
        let count = gaps.count;
        if out.len() < count {
            return Err(Refusal::OutTooShort);
        }
        for i in 0..count {
            out[i] = stretch_at(
                self.committed,
                &self.starts,
                &self.ends,
                self.runs,
                a,
                b,
                first + i,
            );
        }
        Ok(count)
    }

    // The least offset at or above the given one that is not settled. The last offset of all is never settled, so that there is one.
    pub fn nearest_open(self, from: Offset) -> Offset
        requires { Sound self }
        ensures { result ≡ offset (nearest_open (view self) from.0) }
    {
        Offset(nearest_in_place(self.committed, &self.starts, &self.ends, self.runs, from.0))
    }
}

// `open_between` on the parts of a cursor, into a list of numbers: a stretch takes two of its places, its start and its end.
pub fn open_between_in_place<'a>(
    committed: u64,
    starts: &'a [u64],
    ends: &'a [u64],
    runs: usize,
    a: u64,
    b: u64,
    out: &mut [u64],
) -> Result<usize, Refusal>
    requires { Whole (ack_cursor committed starts.now ends.now runs) }
    ensures { answer (as_is result) out.new ≡ open_numbers (view (ack_cursor committed starts.now ends.now runs)) a b out.old }
{
    if b < a {
        return Err(Refusal::BoundsReversed);
    }
    let gaps = find_open(committed, starts, ends, runs, a, b);
    let first = gaps.first;
    let count = gaps.count;
    if out.len() / 2 < count {
        return Err(Refusal::OutTooShort);
    }
    for i in 0..count {
        let stretch = stretch_at(committed, starts, ends, runs, a, b, first + i);
        out[2 * i] = stretch.start;
        out[2 * i + 1] = stretch.end;
    }
    Ok(2 * count)
}

// `nearest_open` on the parts of a cursor.
pub fn nearest_in_place<'a>(
    committed: u64,
    starts: &'a [u64],
    ends: &'a [u64],
    runs: usize,
    offset: u64,
) -> u64
    requires { Whole (ack_cursor committed starts.now ends.now runs) }
    ensures { result ≡ nearest_open (view (ack_cursor committed starts.now ends.now runs)) offset }
{
    let i = partition_point(starts, runs, offset);
    offset.max(end_before(committed, ends, i))
}

// Finds the stretches within [a, b): the first is the one before the first range that starts above a; the last is before the first range
// that starts at b or above, unless what ends before that reaches b.
fn find_open<'a>(
    committed: u64,
    starts: &'a [u64],
    ends: &'a [u64],
    runs: usize,
    a: u64,
    b: u64,
) -> Gaps
    requires { Whole (ack_cursor committed starts.now ends.now runs) }
    ensures { (result.first ≡ upTo a (take runs starts.now)) × (result.count ≡ length (stretches (view (ack_cursor committed starts.now ends.now runs)) a b)) }
{
    let first = partition_point(starts, runs, a);
    if b <= a {
        return Gaps { first, count: 0 };
    }
    let last = partition_point(starts, runs, b - 1);
    let end = end_before(committed, ends, last);
    if end < b {
        let count = last + 1 - first;
        return Gaps { first, count };
    }
    let count = last - first;
    Gaps { first, count }
}

// What [a, b) has of the stretch before the range at a place, or of that behind the last.
fn stretch_at<'a>(
    committed: u64,
    starts: &'a [u64],
    ends: &'a [u64],
    runs: usize,
    a: u64,
    b: u64,
    at: usize,
) -> Range
    requires { (runs ≤ length starts.now) × (at ≤ length ends.now) }
    ensures { result ≡ range (max a (get_or (committed ∷ ends.now) at 0)) (min b (get_or (take runs starts.now) at b)) }
{
    Range {
        start: a.max(end_before(committed, ends, at)),
        end: start_below(starts, runs, at, b),
    }
}

// The start at a place of the first n, or the bound where that comes first.
fn start_below(starts: &[u64], n: usize, at: usize, b: u64) -> u64
    requires { n ≤ length starts.now }
    ensures { result ≡ min b (get_or (take n starts.now) at b) }
{
    if at < n { starts[at].min(b) } else { b }
}
