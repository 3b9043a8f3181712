// The calls on a cursor whose parts lie elsewhere: its numbers come by value and go back beside the answer, its columns are lent and
// changed where they are, so that nothing is copied. An ack and a commit are planned first, with both columns lent to be read: the plan
// has the new numbers, and what becomes of each column. Then each column is changed by a call of its own. The calls on an `AckCursor`
// make the same plans, and lend its own columns one at a time.
ghost use Rattle.std.specs.Prelude.{◌≡◌, ◌-◌, ◌≤◌, ◌<◌, ◌&&◌, ◌∷◌, ltb, eqb, length, take, get_or};
ghost use Rattle.types.specs.Refusal.{done};
ghost use Rattle.types.specs.Refused.{as_is};
ghost use Rattle.types.specs.Table.{answer};
ghost use Rattle.types.specs.Sorted.{Ascending, upTo};
ghost use Rattle.raw.specs.Bytes.{write};
ghost use Rattle.cursor.specs.Cursor.{settled, ackBounded, commit_up_to};
ghost use Rattle.cursor.specs.View.{ack_cursor, view, Whole};
ghost use Rattle.cursor.specs.Answers.{ack_of, Updated};
ghost use Rattle.cursor.specs.Place.{Spotted};
ghost use Rattle.cursor.specs.Edits.{edited, ack_plan, stretch_plan, join_plan, AckPlanned, CommitPlanned};
ghost use Rattle.cursor.specs.Snapshot.{encode_cursor};

use crate::BoundedAck;
use crate::columns::encode_columns;
use types::limits::{MAX, RANGES};
use types::refusals::Refusal;

// What an ack answers, beside the columns.
#[derive(Clone, Copy)]
pub struct Noted {
    pub outcome: BoundedAck,
    pub committed: u64,
    pub runs: usize,
}

// `ack_bounded` on the parts of a cursor.
pub fn ack_in_place(
    committed: u64,
    starts: &mut [u64; RANGES],
    ends: &mut [u64; RANGES],
    runs: usize,
    offset: u64,
    max_runs: usize,
) -> Noted
    requires { Whole (ack_cursor committed starts.old ends.old runs) }
    ensures { Updated (ack_cursor committed starts.old ends.old runs) (ack_of result.outcome) (ack_cursor result.committed starts.new ends.new result.runs) (ackBounded (view (ack_cursor committed starts.old ends.old runs)) offset max_runs) }
{
    let plan = plan_ack(committed, starts, ends, runs, offset, max_runs);
    let noted = plan.noted;
    let on_starts = plan.starts;
    let on_ends = plan.ends;
    apply(starts, runs, on_starts);
    apply(ends, runs, on_ends);
    noted
}

// What a commit answers, beside the columns.
#[derive(Clone, Copy)]
pub struct Moved {
    pub advanced: bool,
    pub committed: u64,
    pub runs: usize,
}

// `commit_up_to` on the parts of a cursor.
pub fn commit_in_place(
    committed: u64,
    starts: &mut [u64; RANGES],
    ends: &mut [u64; RANGES],
    runs: usize,
    bound: u64,
) -> Moved
    requires { Whole (ack_cursor committed starts.old ends.old runs) }
    ensures { Updated (ack_cursor committed starts.old ends.old runs) (done result.advanced) (ack_cursor result.committed starts.new ends.new result.runs) (commit_up_to (view (ack_cursor committed starts.old ends.old runs)) bound) }
{
    let plan = plan_commit(committed, starts, ends, runs, bound);
    let moved = plan.moved;
    let on_both = plan.both;
    apply(starts, runs, on_both);
    apply(ends, runs, on_both);
    moved
}

// `is_acked` on the parts of a cursor.
pub fn is_acked_in_place<'a>(
    committed: u64,
    starts: &'a [u64],
    ends: &'a [u64],
    runs: usize,
    offset: u64,
) -> bool
    requires { Whole (ack_cursor committed starts.now ends.now runs) }
    ensures { result ≡ settled (view (ack_cursor committed starts.now ends.now runs)) offset }
{
    let i = partition_point(starts, runs, offset);
    offset < end_before(committed, ends, i)
}

// `encode_snapshot` on the parts of a cursor.
pub fn encode_in_place<'a>(
    committed: u64,
    starts: &'a [u64],
    ends: &'a [u64],
    runs: usize,
    out: &mut [u8],
    at: usize,
) -> Result<usize, Refusal>
    requires { Whole (ack_cursor committed starts.now ends.now runs) }
    ensures { answer (as_is result) out.new ≡ write at (encode_cursor (view (ack_cursor committed starts.now ends.now runs))) out.old }
{
    encode_columns(committed, starts, ends, runs, out, at)
}

// What becomes of a column of which the first places are in use.
#[derive(Clone, Copy, Debug, PartialEq, Eq)]
pub(crate) enum Edit {
    Keep,
    // This number is set at a place.
    Set { at: usize, x: u64 },
    // This number is put in at a place, what stood from there on one place further.
    Insert { at: usize, x: u64 },
    // The places from one up to another are taken out.
    Remove { from: usize, to: usize },
}

// Changes a column where it lies. An edit at a place that the column doesn't have changes nothing.
pub(crate) fn apply(column: &mut [u64], runs: usize, edit: Edit)
    ensures { column.new ≡ edited runs edit column.old }
{
    match edit {
        Edit::Keep => {}
        Edit::Set { at, x } => {
            if at < column.len() {
                column[at] = x;
            }
        }
        Edit::Insert { at, x } => tables::insert(column, runs, at, x),
        Edit::Remove { from, to } => tables::remove(column, runs, from, to),
    }
}

// What an ack answers, and what becomes of each column.
#[derive(Clone, Copy)]
pub(crate) struct AckPlan {
    pub(crate) noted: Noted,
    pub(crate) starts: Edit,
    pub(crate) ends: Edit,
}

// What an ack does. Nothing is changed yet.
pub(crate) fn plan_ack<'a>(
    committed: u64,
    starts: &'a [u64],
    ends: &'a [u64],
    runs: usize,
    offset: u64,
    max_runs: usize,
) -> AckPlan
    requires { Whole (ack_cursor committed starts.now ends.now runs) }
    ensures { AckPlanned (ack_cursor committed starts.now ends.now runs) offset max_runs result }
{
    let spot = locate(committed, starts, ends, runs, offset);
    match spot {
        Spot::Settled => keeping(BoundedAck::Duplicate, committed, runs),
        Spot::Behind(i) => stretch(committed, runs, i, offset + 1),
        Spot::Between(i) => join(committed, ends, runs, i),
        Spot::Before(i) => {
            let at_start = Edit::Set { at: i, x: offset };
            recorded(committed, runs, at_start, Edit::Keep)
        }
        Spot::Apart(i) => {
            let limit = max_runs.min(RANGES);
            if runs < limit {
                let start = Edit::Insert { at: i, x: offset };
                let end = Edit::Insert {
                    at: i,
                    x: offset + 1,
                };
                return recorded(committed, runs + 1, start, end);
            }
            keeping(BoundedAck::Shed, committed, runs)
        }
    }
}

// An ack that changes nothing.
fn keeping(outcome: BoundedAck, committed: u64, runs: usize) -> AckPlan
    ensures { result ≡ ack_plan outcome committed runs Edit.Keep Edit.Keep }
{
    AckPlan {
        noted: Noted {
            outcome,
            committed,
            runs,
        },
        starts: Edit::Keep,
        ends: Edit::Keep,
    }
}

// An ack that is recorded.
fn recorded(committed: u64, runs: usize, starts: Edit, ends: Edit) -> AckPlan
    ensures { result ≡ ack_plan BoundedAck.Recorded committed runs starts ends }
{
    AckPlan {
        noted: Noted {
            outcome: BoundedAck::Recorded,
            committed,
            runs,
        },
        starts,
        ends,
    }
}

// The end before a place moves, which is committed at the first place.
fn stretch(committed: u64, runs: usize, at: usize, end: u64) -> AckPlan
    ensures { result ≡ stretch_plan committed runs at end }
{
    if at == 0 {
        return recorded(end, runs, Edit::Keep, Edit::Keep);
    }
    let moved = Edit::Set { at: at - 1, x: end };
    recorded(committed, runs, Edit::Keep, moved)
}

// The range at a place becomes part of what ends before it: its start goes, and the end before it, for which at the first place
// committed is its end.
fn join(committed: u64, ends: &[u64], runs: usize, at: usize) -> AckPlan
    requires { (at < runs) × (runs ≤ length ends.now) }
    ensures { result ≡ join_plan committed ends.now runs at }
{
    let start = Edit::Remove {
        from: at,
        to: at + 1,
    };
    if at == 0 {
        return recorded(ends[at], runs - 1, start, start);
    }
    let end = Edit::Remove {
        from: at - 1,
        to: at,
    };
    recorded(committed, runs - 1, start, end)
}

// What a commit answers, and what becomes of both columns.
#[derive(Clone, Copy)]
pub(crate) struct CommitPlan {
    pub(crate) moved: Moved,
    pub(crate) both: Edit,
}

// What a commit does. Nothing is changed yet.
pub(crate) fn plan_commit<'a>(
    committed: u64,
    starts: &'a [u64],
    ends: &'a [u64],
    runs: usize,
    bound: u64,
) -> CommitPlan
    requires { Whole (ack_cursor committed starts.now ends.now runs) }
    ensures { CommitPlanned (ack_cursor committed starts.now ends.now runs) bound result }
{
    if bound <= committed {
        return CommitPlan {
            moved: Moved {
                advanced: false,
                committed,
                runs,
            },
            both: Edit::Keep,
        };
    }
    let k = partition_point(starts, runs, bound);
    let end = end_before(committed, ends, k);
    CommitPlan {
        moved: Moved {
            advanced: true,
            committed: bound.max(end),
            runs: runs - k,
        },
        both: Edit::Remove { from: 0, to: k },
    }
}

// Where an offset stands. Places count from 0, and committed is the end before place 0.
#[derive(Clone, Copy, Debug, PartialEq, Eq)]
enum Spot {
    // Acked before, or the last offset of all.
    Settled,
    // At the end before this place.
    Behind(usize),
    // At the end before this place, and the range at it starts right behind.
    Between(usize),
    // Right before the range at this place.
    Before(usize),
    // Next to nothing, and this is its place.
    Apart(usize),
}

// Where offset x stands.
fn locate(committed: u64, starts: &[u64], ends: &[u64], runs: usize, x: u64) -> Spot
    requires { Whole (ack_cursor committed starts.now ends.now runs) }
    ensures { Spotted (view (ack_cursor committed starts.now ends.now runs)) x result }
{
    if x == MAX {
        return Spot::Settled;
    }
    let i = partition_point(starts, runs, x);
    let end = end_before(committed, ends, i);
    if x < end {
        return Spot::Settled;
    }
    let next = stands_at(starts, runs, i, x + 1);
    if end == x {
        if next {
            return Spot::Between(i);
        }
        return Spot::Behind(i);
    }
    if next {
        return Spot::Before(i);
    }
    Spot::Apart(i)
}

// The end before a place, which is committed at the first place.
pub(crate) fn end_before(committed: u64, ends: &[u64], at: usize) -> u64
    requires { at ≤ length ends.now }
    ensures { result ≡ get_or (committed ∷ ends.now) at 0 }
{
    if at == 0 { committed } else { ends[at - 1] }
}

// Whether x stands at a place of the first n numbers of a column.
fn stands_at(column: &[u64], n: usize, at: usize, x: u64) -> bool
    requires { n ≤ length column.now }
    ensures { result ≡ (ltb at n && eqb (get_or column.now at 0) x) }
{
    at < n && column[at] == x
}

// How many of the first n numbers of a column, which rise, are at most x.
pub(crate) fn partition_point(column: &[u64], n: usize, x: u64) -> usize
    requires { Ascending 0 (take n column.now) }
    ensures { result ≡ upTo x (take n column.now) }
{
    tables::position_after(column, n, x)
}
