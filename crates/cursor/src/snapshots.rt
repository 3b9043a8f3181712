// A cursor's words made anew, from a committed offset, from ranges or from a snapshot; and the snapshot of a cursor's words.
ghost use Rattle.std.specs.Prelude.{◌≡◌, length};
ghost use Rattle.types.specs.Refused.{as_is};
ghost use Rattle.types.specs.Table.{answer};
ghost use Rattle.types.specs.Zipped.{zipped};
ghost use Rattle.raw.specs.Bytes.{write};
ghost use Rattle.cursor.specs.Ranges.{range};
ghost use Rattle.cursor.specs.Cursor.{resume, resume_with_ahead};
ghost use Rattle.cursor.specs.Snapshot.{encode_cursor, decode_cursor};
ghost use Rattle.cursor.specs.Answers.{resume_fault, decode_fault};
ghost use Rattle.cursor.specs.Layout.{WORDS, view, Sound};
ghost use Rattle.cursor.specs.Words.{Becomes, Makes};

use crate::columns::{check_columns, check_snapshot, encode_columns, read_column};
use crate::layout::{COMMITTED, ENDS, RUNS, STARTS, WORDS};
use crate::{AckCursor, AckCursorError, SnapshotError, reads};
use types::Offset;
use types::refusals::Refusal;

// Makes a cursor of any words: at a committed offset, with nothing acked ahead of it.
pub fn resume(cursor: &mut [u64], committed: Offset)
    requires { length cursor.old ≡ WORDS }
    ensures { Becomes cursor.new (resume committed.0) }
{
    cursor[COMMITTED] = committed.0;
    cursor[RUNS] = 0;
}

// The same with ranges ahead, a range for each place that both columns have: 10 and 11 range by range, then 12.
pub fn resume_with_columns<'a>(
    cursor: &mut [u64],
    committed: Offset,
    starts: &'a [u64],
    ends: &'a [u64],
) -> Result<(), AckCursorError>
    requires { length cursor.old ≡ WORDS }
    ensures { Makes (resume_fault result) cursor.old cursor.new (resume_with_ahead committed.0 (zipped range starts.now ends.now)) }
{
    check_columns(committed.0, starts, ends)?;
    let runs = starts.len().min(ends.len());
    tables::copy(&mut cursor[STARTS..ENDS], 0, starts, runs);
    tables::copy(&mut cursor[ENDS..WORDS], 0, ends, runs);
    cursor[COMMITTED] = committed.0;
    cursor[RUNS] = runs as u64;
    Ok(())
}

// The cursor of a snapshot: 6 to 9, then as ranges are refused. All is tested before a word is stored.
pub fn decode_snapshot(cursor: &mut [u64], input: &[u8]) -> Result<(), SnapshotError>
    requires { length cursor.old ≡ WORDS }
    ensures { Makes (decode_fault result) cursor.old cursor.new (decode_cursor input.now) }
{
    let figures = check_snapshot(input)?;
    let runs = figures.runs;
    read_column(input, 9, runs, &mut cursor[STARTS..ENDS]);
    read_column(input, 17, runs, &mut cursor[ENDS..WORDS]);
    cursor[COMMITTED] = figures.committed;
    cursor[RUNS] = runs as u64;
    Ok(())
}

// How long the snapshot is.
pub fn snapshot_len(cursor: &[u64]) -> usize
    requires { Sound cursor.now }
    ensures { result ≡ length (encode_cursor (view cursor.now)) }
{
    let runs = reads::ahead_runs(cursor);
    AckCursor::snapshot_len(runs)
}

// Writes the snapshot from a position on, and answers the position after it: 20.
pub fn encode_snapshot(cursor: &[u64], out: &mut [u8], at: usize) -> Result<usize, Refusal>
    requires { Sound cursor.now }
    ensures { answer (as_is result) out.new ≡ write at (encode_cursor (view cursor.now)) out.old }
{
    let committed = cursor[COMMITTED];
    let runs = cursor[RUNS] as usize;
    encode_columns(
        committed,
        &cursor[STARTS..ENDS],
        &cursor[ENDS..WORDS],
        runs,
        out,
        at,
    )
}
