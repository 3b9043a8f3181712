// The operations that change the cursor.
ghost use Rattle.cursor.specs.View.{Sound};
ghost use Rattle.operations.specs.State.{ListReady, BytesReady};

use crate::answer;
use crate::answer::{Answer, Done};
use crate::state::{Bytes, List};
use cursor::{AckCursor, Acked, BoundedAck};
use types::Offset;
use types::refusals::Refusal;

pub fn left(left: AckCursor, answer: Answer) -> Done<AckCursor>
    requires { Sound left }
    ensures { Sound result.left }
{
    Done { left, answer }
}

// new, resume X
pub fn made(cursor: AckCursor) -> Done<AckCursor>
    requires { Sound cursor }
    ensures { Sound result.left }
{
    left(cursor, answer::plain())
}

// with X: the ranges are the list's entries. A refusal leaves the cursor.
pub fn with(cursor: AckCursor, x: u64, list: List) -> Done<AckCursor>
    requires { Sound cursor × ListReady list }
    ensures { Sound result.left }
{
    match AckCursor::resume_with_columns(Offset(x), &list.a[..list.n], &list.b[..list.n]) {
        Ok(after) => made(after),
        Err(error) => left(cursor, Some(Err(Refusal::from(error)))),
    }
}

// ack X, bounded X LIMIT
pub fn acked(acked: Acked) -> Done<AckCursor>
    requires { Sound acked.cursor }
    ensures { Sound result.left }
{
    let answer = match acked.outcome {
        BoundedAck::Recorded => answer::value(1),
        BoundedAck::Duplicate => answer::value(0),
        BoundedAck::Shed => Some(Err(Refusal::Shed)),
    };
    left(acked.cursor, answer)
}

// commit X
pub fn commit(cursor: AckCursor, x: u64) -> Done<AckCursor>
    requires { Sound cursor }
    ensures { Sound result.left }
{
    let committed = cursor.commit_up_to(Offset(x));
    left(committed.cursor, answer::yes(committed.advanced))
}

// decode FROM TO. A refusal leaves the cursor.
pub fn decode(cursor: AckCursor, from: u64, to: u64, bytes: Bytes) -> Done<AckCursor>
    requires { Sound cursor × BytesReady bytes }
    ensures { Sound result.left }
{
    let Some(part) = bytes.part(from, to) else {
        return left(cursor, None);
    };
    match AckCursor::decode_snapshot(part) {
        Ok(after) => made(after),
        Err(error) => left(cursor, Some(Err(Refusal::from(error)))),
    }
}
