// Questions of a cursor's words: what is settled and what is open, as numbers and in lists.
ghost use Rattle.std.specs.Prelude.{◌≡◌, ◌<◌, length};
ghost use Rattle.types.specs.Identifiers.{offset};
ghost use Rattle.types.specs.Lists.{listed};
ghost use Rattle.types.specs.Refused.{as_is};
ghost use Rattle.types.specs.Table.{answer};
ghost use Rattle.cursor.specs.Ranges.{offsets};
ghost use Rattle.cursor.specs.Place.{rangeAt};
ghost use Rattle.cursor.specs.Plan.{plan, StepIs};
ghost use Rattle.cursor.specs.Unsettled.{nearest_open, bounds, open_numbers};
ghost use Rattle.cursor.specs.Layout.{view, Sound};

use crate::layout::{COMMITTED, ENDS, RUNS, STARTS, WORDS};
use crate::plans::Step;
use crate::{Range, open, plans};
use types::Offset;
use types::refusals::Refusal;

// The offset below which all are acked.
pub fn committed(cursor: &[u64]) -> Offset
    requires { Sound cursor.now }
    ensures { result ≡ offset (view cursor.now).committed }
{
    Offset(cursor[COMMITTED])
}

// How many ranges are ahead of committed.
pub fn ahead_runs(cursor: &[u64]) -> usize
    requires { Sound cursor.now }
    ensures { result ≡ length (view cursor.now).ahead }
{
    cursor[RUNS] as usize
}

// How many offsets are acked ahead of committed.
pub fn ahead_len(cursor: &[u64]) -> u64
    requires { Sound cursor.now }
    ensures { result ≡ offsets (view cursor.now).ahead }
{
    let runs = ahead_runs(cursor);
    let mut sum: u64 = 0;
    for i in 0..runs {
        let range = range_at(cursor, i);
        sum += range.end - range.start;
    }
    sum
}

// Lists the ranges ahead, two numbers for each, its start and its end, and answers how many places that takes: 20.
pub fn ahead_ranges(cursor: &[u64], out: &mut [u64]) -> Result<usize, Refusal>
    requires { Sound cursor.now }
    ensures { answer (as_is result) out.new ≡ listed (bounds (view cursor.now).ahead) out.old }
{
    let runs = ahead_runs(cursor);
    if out.len() / 2 < runs {
        return Err(Refusal::OutTooShort);
    }
    for i in 0..runs {
        let range = range_at(cursor, i);
        out[2 * i] = range.start;
        out[2 * i + 1] = range.end;
    }
    Ok(2 * runs)
}

// The least offset at or above the given one that is not settled.
pub fn nearest_open(cursor: &[u64], from: Offset) -> Offset
    requires { Sound cursor.now }
    ensures { result ≡ offset (nearest_open (view cursor.now) from.0) }
{
    Offset(open::nearest_in_place(
        cursor[COMMITTED],
        &cursor[STARTS..ENDS],
        &cursor[ENDS..WORDS],
        cursor[RUNS] as usize,
        from.0,
    ))
}

// Lists the unsettled stretches within [a, b), two numbers for each, its start and its end, and answers how many places that takes: 32,
// 20.
pub fn open_between(cursor: &[u64], a: u64, b: u64, out: &mut [u64]) -> Result<usize, Refusal>
    requires { Sound cursor.now }
    ensures { answer (as_is result) out.new ≡ open_numbers (view cursor.now) a b out.old }
{
    let committed = cursor[COMMITTED];
    let runs = cursor[RUNS] as usize;
    open::open_between_in_place(
        committed,
        &cursor[STARTS..ENDS],
        &cursor[ENDS..WORDS],
        runs,
        a,
        b,
        out,
    )
}

// Answers each offset of a list, 1 where it is acked and 0 where it isn't, and how many looks that took: 36, 37.
pub fn plan(cursor: &[u64], offsets: &[u64], out: &mut [u8]) -> Result<usize, Refusal>
    requires { Sound cursor.now }
    ensures { answer (as_is result) out.new ≡ plan (view cursor.now) offsets.now out.old }
{
    let committed = cursor[COMMITTED];
    let runs = cursor[RUNS] as usize;
    plans::plan_in_place(
        committed,
        &cursor[STARTS..ENDS],
        &cursor[ENDS..WORDS],
        runs,
        offsets,
        out,
    )
}

// One offset of a plan: the walk stood on the range at a place.
pub fn step_to(cursor: &[u64], at: usize, offset: u64) -> Step
    requires { Sound cursor.now }
    ensures { StepIs (view cursor.now) at offset result }
{
    let committed = cursor[COMMITTED];
    let runs = cursor[RUNS] as usize;
    plans::step_to(
        committed,
        &cursor[STARTS..ENDS],
        &cursor[ENDS..WORDS],
        runs,
        at,
        offset,
    )
}

// The range at a place.
pub(crate) fn range_at(cursor: &[u64], at: usize) -> Range
    requires { Sound cursor.now × (at < length (view cursor.now).ahead) }
    ensures { result ≡ rangeAt at (view cursor.now).ahead }
{
    Range {
        start: cursor[STARTS + at],
        end: cursor[ENDS + at],
    }
}
