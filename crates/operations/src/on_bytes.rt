// The operations that change the bytes: their own, and those that write a snapshot.
ghost use Rattle.cursor.specs.View.{Sound};
ghost use Rattle.operations.specs.State.{BytesReady};

use crate::answer;
use crate::answer::{Answer, Done, Values};
use crate::state::{Bytes, List, Op};
use cursor::AckCursor;
use types::Pair;
use types::refusals::Refusal;

// new N V
fn new(n: u64, byte: u64, bytes: Bytes) -> Done<Bytes>
    requires { BytesReady bytes }
    ensures { BytesReady result.left }
{
    let bad = Done {
        left: bytes,
        answer: None,
    };
    let Ok(byte) = u8::try_from(byte) else {
        return bad;
    };
    if 4096 < n {
        return bad;
    }
    Done {
        left: Bytes {
            all: [byte; 4096],
            n: n as usize,
        },
        answer: answer::plain(),
    }
}

// set I V
fn set(i: u64, byte: u64, bytes: &mut [u8]) -> Answer {
    let byte = u8::try_from(byte).ok()?;
    let place = bytes.get_mut(i as usize)?;
    *place = byte;
    answer::plain()
}

// seal FROM TO
fn seal(from: u64, to: u64, bytes: &mut [u8]) -> Answer {
    let part = bytes.get_mut(from as usize..to as usize)?;
    let len = part.len().checked_sub(4)?;
    let check = crc::crc32c(&part[..len]);
    let _ = raw::write_u32(part, len, check);
    answer::plain()
}

// The position behind what was written.
fn written(outcome: Result<usize, Refusal>) -> Answer {
    Some(outcome.map(|at| Values::One(at as u64)))
}

// An entry as an attempt pair: B modulo 2^32 is the count.
pub fn pair_of(a: u64, b: u64) -> Pair {
    Pair {
        offset: a,
        attempt: (b % 4294967296) as u32,
    }
}

// The first 128 entries as attempt pairs.
fn pairs_of(list: List) -> [Pair; 128] {
    let mut pairs = [pair_of(0, 0); 128];
    for i in 0..128 {
        pairs[i] = pair_of(list.a[i], list.b[i]);
    }
    pairs
}

// set I V, seal FROM TO, cursor encode AT, attempt encode AT, attempt encode2 AT
fn write(op: Op, cursor: AckCursor, list: List, bytes: &mut [u8]) -> Answer
    requires { Sound cursor }
{
    let at = op.w as usize;
    match op.number {
        12 => set(op.w, op.x, bytes),
        13 => seal(op.w, op.x, bytes),
        14 => written(cursor.encode_snapshot(bytes, at)),
        15 => written(attempt::encode_pairs(pairs_of(list), list.n, bytes, at)),
        16 => written(attempt::encode_pairs_v2(pairs_of(list), list.n, bytes, at)),
        _ => None,
    }
}

// All of them.
pub fn change(op: Op, cursor: AckCursor, list: List, bytes: Bytes) -> Done<Bytes>
    requires { Sound cursor × BytesReady bytes }
    ensures { BytesReady result.left }
{
    if op.number == 11 {
        return new(op.w, op.x, bytes);
    }
    let n = bytes.n;
    let mut all = bytes.all;
    let answer = write(op, cursor, list, &mut all[..n]);
    Done {
        left: Bytes { all, n },
        answer,
    }
}
