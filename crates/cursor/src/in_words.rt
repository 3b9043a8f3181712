// The calls on a cursor that is one lent list of words (`layout` says where its parts lie). An ack or a commit is planned first, with both
// columns lent to be read (`in_place`); then each column is changed where it lies.
ghost use Rattle.types.specs.Refusal.{done};
ghost use Rattle.std.specs.Prelude.{◌≡◌};
ghost use Rattle.cursor.specs.Cursor.{settled, ackBounded, commit_up_to};
ghost use Rattle.cursor.specs.Answers.{ack_of};
ghost use Rattle.cursor.specs.Layout.{view, Sound};
ghost use Rattle.cursor.specs.Words.{Updated};

use crate::BoundedAck;
use crate::in_place::{apply, is_acked_in_place, plan_ack, plan_commit};
use crate::layout::{COMMITTED, ENDS, RUNS, STARTS, WORDS};
use types::Offset;
use types::limits::RANGES;

// Settles an offset: 29 where that makes a range more than 128.
pub fn ack(cursor: &mut [u64], offset: Offset) -> BoundedAck
    requires { Sound cursor.old }
    ensures { Updated (ack_of result) cursor.old cursor.new (ackBounded (view cursor.old) offset.0 128) }
{
    ack_bounded(cursor, offset, RANGES)
}

// Settles an offset, unless that makes a range more than so many: 29.
pub fn ack_bounded(cursor: &mut [u64], offset: Offset, max_runs: usize) -> BoundedAck
    requires { Sound cursor.old }
    ensures { Updated (ack_of result) cursor.old cursor.new (ackBounded (view cursor.old) offset.0 max_runs) }
{
    let runs = cursor[RUNS] as usize;
    let plan = plan_ack(
        cursor[COMMITTED],
        &cursor[STARTS..ENDS],
        &cursor[ENDS..WORDS],
        runs,
        offset.0,
        max_runs,
    );
    let noted = plan.noted;
    let on_starts = plan.starts;
    let on_ends = plan.ends;
    apply(&mut cursor[STARTS..ENDS], runs, on_starts);
    apply(&mut cursor[ENDS..WORDS], runs, on_ends);
    cursor[COMMITTED] = noted.committed;
    cursor[RUNS] = noted.runs as u64;
    noted.outcome
}

// Settles all offsets below a bound: false where the bound is not above committed.
pub fn commit_up_to(cursor: &mut [u64], up_to: Offset) -> bool
    requires { Sound cursor.old }
    ensures { Updated (done result) cursor.old cursor.new (commit_up_to (view cursor.old) up_to.0) }
{
    let runs = cursor[RUNS] as usize;
    let plan = plan_commit(
        cursor[COMMITTED],
        &cursor[STARTS..ENDS],
        &cursor[ENDS..WORDS],
        runs,
        up_to.0,
    );
    let moved = plan.moved;
    let on_both = plan.both;
    apply(&mut cursor[STARTS..ENDS], runs, on_both);
    apply(&mut cursor[ENDS..WORDS], runs, on_both);
    cursor[COMMITTED] = moved.committed;
    cursor[RUNS] = moved.runs as u64;
    moved.advanced
}

// Whether an offset is settled.
pub fn is_acked(cursor: &[u64], offset: Offset) -> bool
    requires { Sound cursor.now }
    ensures { result ≡ settled (view cursor.now) offset.0 }
{
    let starts = &cursor[STARTS..ENDS];
    let ends = &cursor[ENDS..WORDS];
    let runs = cursor[RUNS] as usize;
    is_acked_in_place(cursor[COMMITTED], starts, ends, runs, offset.0)
}
