// A cursor snapshot and an attempt snapshot: that it is sound and what it has, or the refusal, beside which no range and no pair stands.
use crate::refusals::{refused, snapshot_advice};
use crate::said::byte;
use attempt::Decoded;
use cursor::AckCursor;
use text::output::Output;
use types::limits::{PAIRS, RANGES};
use types::refusals::Refusal;

// A snapshot's refusal, and what to do.
fn no_snapshot(out: &mut Output, refusal: Refusal) {
    out.put(b"refused: ");
    refused(out, refusal);
    snapshot_advice(out, refusal);
}

// The offsets of a range, whose end is not among them.
fn range(out: &mut Output, start: u64, end: u64) {
    let last = end.saturating_sub(1);
    if start < last {
        out.say(b"offsets # to # are settled\n", &[start, last]);
    } else {
        out.say(b"offset # is settled\n", &[start]);
    }
}

// Which offsets are settled: those below committed, and those of each range.
fn settled(out: &mut Output, len: u64, cursor: AckCursor) {
    out.say(
        b"sound: a cursor snapshot of # bytes\nevery offset below # is settled; ranges above it: #\n",
        &[len, cursor.committed, cursor.runs as u64],
    );
    for i in 0..cursor.runs.min(RANGES) {
        range(out, cursor.starts[i], cursor.ends[i]);
    }
}

// Which offsets are settled, or why the bytes are refused.
pub fn cursor(out: &mut Output, bytes: &[u8]) {
    let len = bytes.len() as u64;
    match AckCursor::decode_snapshot(bytes) {
        Ok(cursor) => settled(out, len, cursor),
        Err(error) => {
            no_snapshot(out, Refusal::from(error));
            out.say(b"file: # bytes, read as a cursor snapshot\n", &[len]);
        }
    }
}

// The file of an attempt snapshot that is refused. Its version is named but where there is none, or where the refusal names it.
fn attempts_file(out: &mut Output, len: u64, version: u64, refusal: Refusal) {
    match refusal {
        Refusal::AttemptTruncated | Refusal::AttemptUnsupportedVersion { .. } => {
            out.say(b"file: # bytes, read as an attempt snapshot\n", &[len])
        }
        _ => out.say(
            b"file: # bytes, read as an attempt snapshot of version #\n",
            &[len, version],
        ),
    }
}

// How often an offset was handed out.
fn count(out: &mut Output, offset: u64, count: u64) {
    if count == 1 {
        out.say(b"offset # was handed out once\n", &[offset]);
    } else {
        out.say(b"offset # was handed out # times\n", &[offset, count]);
    }
}

// How often each offset was handed out.
fn handed_out(out: &mut Output, len: u64, version: u64, decoded: Decoded) {
    out.say(
        b"sound: an attempt snapshot of # bytes, version #\noffsets with a count: #\n",
        &[len, version, decoded.count as u64],
    );
    for i in 0..decoded.count.min(PAIRS) {
        let pair = decoded.pairs[i];
        count(out, pair.offset, u64::from(pair.attempt));
    }
}

// How often each offset was handed out, or why the bytes are refused.
pub fn attempts(out: &mut Output, bytes: &[u8]) {
    let len = bytes.len() as u64;
    let version = byte(bytes, 0);
    match attempt::decode_pairs(bytes) {
        Ok(decoded) => handed_out(out, len, version, decoded),
        Err(error) => {
            let refusal = Refusal::from(error);
            no_snapshot(out, refusal);
            attempts_file(out, len, version, refusal);
        }
    }
}
