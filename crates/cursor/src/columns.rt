// The snapshot of a cursor over columns that the caller lends: ranges are tested where they lie, in the bytes or in the columns, and
// then copied from the one to the other. No cursor is built between, and what is refused stores nothing.
ghost use Rattle.std.specs.Prelude.{◌≡◌, ◌++◌, ◌+◌, ◌*◌, ◌≤◌, length, drop};
ghost use Rattle.types.specs.Limits.{MAX};
ghost use Rattle.types.specs.Refused.{as_is};
ghost use Rattle.types.specs.Table.{answer, first};
ghost use Rattle.types.specs.Zipped.{zipped};
ghost use Rattle.raw.specs.Bytes.{write};
ghost use Rattle.cursor.specs.Ranges.{range};
ghost use Rattle.cursor.specs.Cursor.{resume_table};
ghost use Rattle.cursor.specs.Snapshot.{encode_cursor, read_ranges, column_from};
ghost use Rattle.cursor.specs.View.{ack_cursor, view};
ghost use Rattle.cursor.specs.Answers.{resume_fault, CheckedIs};

use crate::codec::{RANGE_LEN, check_frame, write_body};
use crate::{AckCursor, AckCursorError, SnapshotError, check_range};
use types::limits::RANGES;
use types::refusals::Refusal;

// What stands before the ranges of a snapshot, and how many they are.
#[derive(Clone, Copy)]
pub struct Figures {
    pub committed: u64,
    pub runs: usize,
}

// Whether bytes are a snapshot: refused as `decode_snapshot` refuses them.
pub fn check_snapshot(input: &[u8]) -> Result<Figures, SnapshotError>
    ensures { CheckedIs input.now result }
{
    check_frame(input)?;
    let committed = raw::read_u64(input, 1);
    let runs = (input.len() - AckCursor::SNAPSHOT_MIN_LEN) / RANGE_LEN;
    check_ranges(input, committed, runs)?;
    Ok(Figures { committed, runs })
}

// Whether so many ranges of a snapshot may stand ahead of committed: all of them are tested before their number is.
fn check_ranges(input: &[u8], committed: u64, runs: usize) -> Result<(), AckCursorError>
    requires { 9 + 16 * runs ≤ length input.now }
    ensures { resume_fault result ≡ first (resume_table committed (read_ranges runs 9 input.now)) }
{
    let mut last = committed;
    for i in 0..runs {
        let pos = 9 + RANGE_LEN * i;
        let start = raw::read_u64(input, pos);
        let end = raw::read_u64(input, pos + 8);
        check_range(last, start, end)?;
        last = end;
    }
    if RANGES < runs {
        return Err(AckCursorError::TooManyRuns);
    }
    Ok(())
}

// Puts the starts of the first ranges of a snapshot, which are from byte 9 on, or their ends, from 17 on, at the front of a lent column.
pub fn read_column(input: &[u8], from: usize, count: usize, column: &mut [u64])
    requires { (from + 16 * count ≤ MAX) × (count ≤ length column.old) }
    ensures { column.new ≡ column_from count from input.now ++ drop count column.old }
{
    for i in 0..count {
        column[i] = raw::read_u64(input, from + RANGE_LEN * i);
    }
}

// Whether the ranges of two columns, one for each place that both have, may stand ahead of committed: as `resume_with_columns`
// tests them.
pub fn check_columns<'a>(
    committed: u64,
    starts: &'a [u64],
    ends: &'a [u64],
) -> Result<(), AckCursorError>
    ensures { resume_fault result ≡ first (resume_table committed (zipped range starts.now ends.now)) }
{
    let n = starts.len().min(ends.len());
    let mut last = committed;
    for i in 0..n {
        let end = ends[i];
        check_range(last, starts[i], end)?;
        last = end;
    }
    if RANGES < n {
        return Err(AckCursorError::TooManyRuns);
    }
    Ok(())
}

// `encode_snapshot` of the first n ranges of two columns.
pub fn encode_columns<'a>(
    committed: u64,
    starts: &'a [u64],
    ends: &'a [u64],
    n: usize,
    out: &mut [u8],
    at: usize,
) -> Result<usize, Refusal>
    requires { (n ≤ 128) × (n ≤ length starts.now) × (n ≤ length ends.now) }
    ensures { answer (as_is result) out.new ≡ write at (encode_cursor (view (ack_cursor committed starts.now ends.now n))) out.old }
{
    let len = AckCursor::snapshot_len(n);
    if raw::too_short(out.len(), at, len) {
        return Err(Refusal::OutTooShort);
    }
    write_body(committed, starts, ends, n, out, at);
    let end = at + (len - 4);
    let check = crc::crc32c(&out[at..end]);
    raw::write_u32(out, end, check)
}
