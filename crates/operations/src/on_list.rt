// The operations that change the list's entries: its own, and those that answer a list.
ghost use Rattle.operations.specs.State.{ListReady, BytesReady};

use crate::answer::{Answer, Done};
use crate::state::{Bytes, List, Op};
use crate::{answer, state};
use attempt::Decoded;
use cursor::AckCursor;
use types::lent;
use types::lent::{AttemptCounts, OffsetList};
use types::refusals::Refusal;

pub fn left(left: List, answer: Answer) -> Done<List>
    requires { ListReady left }
    ensures { ListReady result.left }
{
    Done { left, answer }
}

// A list that was asked for.
fn filled(list: List) -> Done<List>
    requires { ListReady list }
    ensures { ListReady result.left }
{
    left(list, answer::value(list.n as u64))
}

// A list that was asked for with so much room; where it doesn't fit, the one before.
fn fitted(next: List, room: u64, before: List) -> Done<List>
    requires { ListReady next × ListReady before }
    ensures { ListReady result.left }
{
    if 256 < room {
        return left(before, None);
    }
    if room < next.n as u64 {
        return left(before, Some(Err(Refusal::OutTooShort)));
    }
    filled(next)
}

// One entry more, where there is room.
fn added(mut list: List, a: u64, b: u64) -> List
    requires { ListReady list }
    ensures { ListReady result }
{
    let n = list.n;
    if n < 256 {
        list.a[n] = a;
        list.b[n] = b;
        list.n = n + 1;
    }
    list
}

// add A B
pub fn add(list: List, a: u64, b: u64) -> Done<List>
    requires { ListReady list }
    ensures { ListReady result.left }
{
    if 256 <= list.n {
        return left(list, None);
    }
    left(added(list, a, b), answer::plain())
}

// The entries of a cursor's ranges.
fn entries_of(cursor: AckCursor) -> List
    ensures { ListReady result }
{
    let mut list = state::empty();
    for i in 0..cursor.runs.min(128) {
        list = added(list, cursor.starts[i], cursor.ends[i]);
    }
    list
}

// cursor ranges ROOM
pub fn ranges(cursor: AckCursor, room: u64, list: List) -> Done<List>
    requires { ListReady list }
    ensures { ListReady result.left }
{
    fitted(entries_of(cursor), room, list)
}

// lease counts, lease all
pub fn counts(counts: AttemptCounts) -> Done<List>
    ensures { ListReady result.left }
{
    let mut list = state::empty();
    for i in 0..counts.len.min(192) {
        list = added(list, counts.offsets[i], u64::from(counts.attempts[i]));
    }
    filled(list)
}

// lease expired NOW ROOM: each B is 0.
pub fn offsets(offsets: OffsetList, room: u64, list: List) -> Done<List>
    requires { ListReady list }
    ensures { ListReady result.left }
{
    let mut a = [0u64; 256];
    match lent::list_numbers(offsets, &mut a) {
        Ok(n) => fitted(List { a, b: [0; 256], n }, room, list),
        Err(refusal) => left(list, Some(Err(refusal))),
    }
}

// The entries of attempt pairs that were read.
fn entries_from(decoded: Decoded) -> List
    ensures { ListReady result }
{
    let mut list = state::empty();
    for i in 0..decoded.count.min(128) {
        let pair = decoded.pairs[i];
        list = added(list, pair.offset, u64::from(pair.attempt));
    }
    list
}

// attempt decode FROM TO ROOM
pub fn decode(op: Op, bytes: Bytes, list: List) -> Done<List>
    requires { BytesReady bytes × ListReady list }
    ensures { ListReady result.left }
{
    let Some(part) = bytes.part(op.w, op.x) else {
        return left(list, None);
    };
    if 256 < op.y {
        return left(list, None);
    }
    match attempt::decode_pairs(part) {
        Ok(decoded) => fitted(entries_from(decoded), op.y, list),
        Err(error) => left(list, Some(Err(Refusal::from(error)))),
    }
}
