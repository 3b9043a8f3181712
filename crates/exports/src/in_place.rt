// A cursor that a program in another language holds, changed where it lies: its columns are lent, and nothing is copied. A
// cursor of zeros is a new one.
ghost use Rattle.std.specs.Prelude.{◌≡◌};
ghost use Rattle.cursor.specs.Cursor.{ackBounded};
ghost use Rattle.cursor.specs.View.{ack_cursor, view, Sound, Whole};
ghost use Rattle.cursor.specs.Answers.{ack_of};
ghost use Rattle.exports.specs.InPlace.{ack_number, AckedInPlace};

use cursor::in_place::ack_in_place;
use cursor::{AckCursor, BoundedAck};
use types::limits::RANGES;

// What an ack answers in a number, beside the columns.
#[derive(Clone, Copy)]
struct NotedNumber {
    number: u64,
    committed: u64,
    runs: usize,
}

// The number of an outcome.
fn ack_number(outcome: BoundedAck) -> u64
    ensures { result ≡ ack_number (ack_of outcome) }
{
    match outcome {
        BoundedAck::Recorded => 0,
        BoundedAck::Duplicate => 1,
        BoundedAck::Shed => 29,
    }
}

// An ack on the parts of a cursor.
fn ack_parts(
    committed: u64,
    starts: &mut [u64; RANGES],
    ends: &mut [u64; RANGES],
    runs: usize,
    offset: u64,
) -> NotedNumber
    requires { Whole (ack_cursor committed starts.old ends.old runs) }
    ensures { AckedInPlace (ack_cursor committed starts.old ends.old runs) result.number (ack_cursor result.committed starts.new ends.new result.runs) (ackBounded (view (ack_cursor committed starts.old ends.old runs)) offset 128) }
{
    let noted = ack_in_place(committed, starts, ends, runs, offset, RANGES);
    let outcome = noted.outcome;
    NotedNumber {
        number: ack_number(outcome),
        committed: noted.committed,
        runs: noted.runs,
    }
}

// Records an ack, as `AckCursor::ack` does. Answers 0 where it was new, 1 for a duplicate, and 29 where it is shed.
pub fn ninotskev_cursor_ack(cursor: &mut AckCursor, offset: u64) -> u64
    requires { Sound cursor.old }
    ensures { AckedInPlace cursor.old result cursor.new (ackBounded (view cursor.old) offset 128) }
{
    let committed = cursor.committed;
    let runs = cursor.runs;
    let noted = ack_parts(
        committed,
        &mut cursor.starts,
        &mut cursor.ends,
        runs,
        offset,
    );
    cursor.committed = noted.committed;
    cursor.runs = noted.runs;
    noted.number
}
