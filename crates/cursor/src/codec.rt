// The snapshot of a cursor: version 1, committed, the ranges as two numbers each, and the check of all before it.
ghost use Rattle.std.specs.Prelude.{◌≡◌, ◌+◌, ◌*◌, ◌≤◌, length, take};
ghost use Rattle.types.specs.Refused.{as_is};
ghost use Rattle.types.specs.Table.{answer, first};
ghost use Rattle.types.specs.Zipped.{zipped};
ghost use Rattle.raw.specs.Bytes.{overwrite, write};
ghost use Rattle.cursor.specs.Ranges.{range};
ghost use Rattle.cursor.specs.Snapshot.{ranges_bytes, body_bytes, encode_cursor, frame_table};
ghost use Rattle.cursor.specs.View.{ack_cursor, view, Sound};
ghost use Rattle.cursor.specs.Answers.{decode_fault, DecodedIs};

use crate::columns::{check_snapshot, read_column};
use crate::in_place::encode_in_place;
use crate::{AckCursor, SnapshotError};
use types::Offset;
use types::refusals::Refusal;

const SNAPSHOT_VERSION: u8 = 1;

// The bytes of a range in a snapshot.
pub(crate) const RANGE_LEN: usize = 16;

impl AckCursor {
    // The length of a snapshot without ranges: version, committed and check.
    pub const SNAPSHOT_MIN_LEN: usize = 1 + 8 + 4;

    // The length of a snapshot with so many ranges.
    pub fn snapshot_len(runs: usize) -> usize
        requires { runs ≤ 128 }
        ensures { result ≡ 13 + 16 * runs }
    {
        AckCursor::SNAPSHOT_MIN_LEN + RANGE_LEN * runs
    }

    // Writes the snapshot from a position on, and answers the position behind it. Refused without room (20).
    pub fn encode_snapshot(self, out: &mut [u8], at: usize) -> Result<usize, Refusal>
        requires { Sound self }
        ensures { answer (as_is result) out.new ≡ write at (encode_cursor (view self)) out.old }
    {
        encode_in_place(self.committed, &self.starts, &self.ends, self.runs, out, at)
    }

    // The cursor of a snapshot. Refused in this order: too short (6), no whole number of ranges (7), another version (8), a
    // wrong check (9), range by range an empty one (10) or one not above the end before it (11), over 128 ranges (12). A refused
    // snapshot is torn or worn: go back to the one before it, and trust no part of this one.
    pub fn decode_snapshot(input: &[u8]) -> Result<AckCursor, SnapshotError>
        ensures { DecodedIs input.now result }
    {
        let figures = check_snapshot(input)?;
        let runs = figures.runs;
        let mut cursor = AckCursor::resume(Offset(figures.committed));
        read_column(input, 9, runs, &mut cursor.starts);
        read_column(input, 17, runs, &mut cursor.ends);
        cursor.runs = runs;
        Ok(cursor)
    }
}

// Writes all of a snapshot but its check.
pub(crate) fn write_body<'a>(
    committed: u64,
    starts: &'a [u64],
    ends: &'a [u64],
    n: usize,
    out: &mut [u8],
    at: usize,
)
    requires { (n ≤ length starts.now) × (n ≤ length ends.now) × (at + (9 + 16 * n) ≤ length out.old) }
    ensures { out.new ≡ overwrite at (body_bytes (view (ack_cursor committed starts.now ends.now n))) out.old }
{
    out[at] = SNAPSHOT_VERSION;
    let _ = raw::write_u64(out, at + 1, committed);
    write_ranges(starts, ends, n, out, at + 9);
}

// Writes the first n ranges of columns from a position on.
fn write_ranges<'a>(starts: &'a [u64], ends: &'a [u64], n: usize, out: &mut [u8], at: usize)
    requires { (n ≤ length starts.now) × (n ≤ length ends.now) × (at + 16 * n ≤ length out.old) }
    ensures { out.new ≡ overwrite at (ranges_bytes (zipped range (take n starts.now) (take n ends.now))) out.old }
{
    for i in 0..n {
        let pos = at + RANGE_LEN * i;
        let _ = raw::write_u64(out, pos, starts[i]);
        let _ = raw::write_u64(out, pos + 8, ends[i]);
    }
}

// Whether bytes are framed as a snapshot: their length, version and check.
pub(crate) fn check_frame(input: &[u8]) -> Result<(), SnapshotError>
    ensures { decode_fault result ≡ first (frame_table input.now) }
{
    let len = input.len();
    if len < AckCursor::SNAPSHOT_MIN_LEN {
        return Err(SnapshotError::Truncated);
    }
    let ranges_len = len - AckCursor::SNAPSHOT_MIN_LEN;
    if ranges_len % RANGE_LEN != 0 {
        return Err(SnapshotError::BadLength { len });
    }
    let version = input[0];
    if version != SNAPSHOT_VERSION {
        return Err(SnapshotError::UnsupportedVersion(version));
    }
    if !crc::is_sealed(input) {
        return Err(SnapshotError::BadCrc);
    }
    Ok(())
}
