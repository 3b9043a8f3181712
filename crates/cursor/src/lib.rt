// The commit cursor of a work group: how one shared cursor advances under acks that come out of order. `committed` is
// the offset below which all are acked; what is acked ahead of it is kept as ranges, in order and apart from each other.
// An ack at committed moves it over that offset and over the range that begins right behind it. A cursor goes in by value
// and comes back; nothing is kept elsewhere, and an ack or a commit shifts its ranges within its own columns.
#![tactic(auto)]

ghost use Rattle.std.specs.Prelude.{◌≡◌, ◌<◌, ◌≤◌, length, IfOk};
ghost use Rattle.types.specs.Limits.{MAX};
ghost use Rattle.types.specs.Identifiers.{offset};
ghost use Rattle.types.specs.Refusal.{done};
ghost use Rattle.types.specs.Refused.{refusal_of, as_is};
ghost use Rattle.types.specs.Lists.{listed};
ghost use Rattle.types.specs.Table.{answer, first};
ghost use Rattle.types.specs.Zipped.{zipped};
ghost use Rattle.cursor.specs.Ranges.{range, EndsFit, offsets};
ghost use Rattle.cursor.specs.Cursor.{settled, ackBounded, commit_up_to, range_table, resume_table};
ghost use Rattle.cursor.specs.View.{view, Sound, Fresh};
ghost use Rattle.cursor.specs.Answers.{ack_of, ranges_error, snapshot_error, Updated, resume_fault, ResumedIs};
ghost use Rattle.cursor.specs.Place.{rangeAt};
ghost use Rattle.cursor.specs.declared.SnapshotError.TheVariants.{Ranges};

use crate::columns::check_columns;
use crate::in_place::{apply, is_acked_in_place, plan_ack, plan_commit};
use types::Offset;
use types::limits::RANGES;
use types::refusals::Refusal;

// `encode_snapshot` and `decode_snapshot`; the same over lent columns.
mod codec;
pub mod columns;
pub mod in_place;
// A cursor that is one lent list of words: where each number stands there, the calls, the questions, and what makes the words anew.
pub mod in_words;
pub mod layout;
pub mod open;
pub mod plans;
pub mod reads;
pub mod snapshots;

// The offsets from start up to, and not including, end.
#[repr(C)]
#[derive(Clone, Copy)]
pub struct Range {
    pub start: u64,
    pub end: u64,
}

// The ranges ahead are [starts[i], ends[i]) for i below runs, each nonempty and starting above the end before it, the
// first above committed.
#[repr(C)]
#[derive(Clone, Copy)]
pub struct AckCursor {
    pub committed: u64,
    pub starts: [u64; RANGES],
    pub ends: [u64; RANGES],
    pub runs: usize,
}

// What a bounded ack answers. Recorded: it was new. Duplicate: the offset was acked before, or is the last of all, which
// is never acked. Shed, refusal 29: it would have made a range more than the limit; the offset still reads as unacked
// and comes again later, a duplicate and no loss. A caller should count these: many of them say that acks leave too many gaps.
#[derive(Clone, Copy, Debug, PartialEq, Eq)]
pub enum BoundedAck {
    Recorded,
    Duplicate,
    Shed,
}

// What an ack answers. The cursor stands first: behind a smaller field it would be copied once more on its way out.
#[derive(Clone, Copy)]
pub struct Acked {
    pub cursor: AckCursor,
    pub outcome: BoundedAck,
}

// The cursor, first as in `Acked`, and whether the bound was above committed.
#[derive(Clone, Copy)]
pub struct Committed {
    pub cursor: AckCursor,
    pub advanced: bool,
}

// Ranges that no cursor has: refusals 10, 11 and 12.
#[derive(Clone, Copy, Debug, PartialEq, Eq)]
pub enum AckCursorError {
    // start is not below end.
    EmptyRange { start: u64, end: u64 },
    // start is not above the end before it, which is committed for the first range.
    NotSortedDisjointAndAboveCommitted { start: u64, prev_end: u64 },
    // Over 128 ranges.
    TooManyRuns,
}

// Bytes that are no snapshot: refusals 6 to 9, and those of the ranges.
#[derive(Clone, Copy, Debug, PartialEq, Eq)]
pub enum SnapshotError {
    // Shorter than a snapshot without ranges.
    Truncated,
    // No whole number of ranges.
    BadLength { len: usize },
    // Another version than 1.
    UnsupportedVersion(u8),
    // The check is not that of the bytes before it.
    BadCrc,
    Ranges(AckCursorError),
}

impl From<AckCursorError> for SnapshotError {
    ghost from_gives = { λ error e. e ≡ Ranges error };

    fn from(error: AckCursorError) -> SnapshotError {
        SnapshotError::Ranges(error)
    }
}

impl From<AckCursorError> for Refusal {
    ghost from_gives = { λ error r. refusal_of r ≡ ranges_error error };

    fn from(error: AckCursorError) -> Refusal {
        match error {
            AckCursorError::EmptyRange { start, end } => Refusal::EmptyRange { start, end },
            AckCursorError::NotSortedDisjointAndAboveCommitted { start, prev_end } => {
                Refusal::NotSortedDisjointAndAboveCommitted { start, prev_end }
            }
            AckCursorError::TooManyRuns => Refusal::TooManyRuns,
        }
    }
}

impl From<SnapshotError> for Refusal {
    ghost from_gives = { λ error r. refusal_of r ≡ snapshot_error error };

    fn from(error: SnapshotError) -> Refusal {
        match error {
            SnapshotError::Truncated => Refusal::CursorTruncated,
            SnapshotError::BadLength { len } => Refusal::CursorBadLength { len },
            SnapshotError::UnsupportedVersion(version) => {
                Refusal::CursorUnsupportedVersion { version }
            }
            SnapshotError::BadCrc => Refusal::CursorBadCrc,
            SnapshotError::Ranges(error) => Refusal::from(error),
        }
    }
}

impl Default for AckCursor {
    fn default() -> AckCursor
        ensures { Fresh 0 result }
    {
        AckCursor::new()
    }
}

impl AckCursor {
    // A cursor at offset zero with nothing acked.
    pub fn new() -> AckCursor
        ensures { Fresh 0 result }
    {
        AckCursor::resume(Offset::ZERO)
    }

    // A cursor at a committed offset with nothing acked ahead of it.
    pub fn resume(committed: Offset) -> AckCursor
        ensures { Fresh committed.0 result }
    {
        AckCursor {
            committed: committed.0,
            starts: [0; RANGES],
            ends: [0; RANGES],
            runs: 0,
        }
    }

    // A cursor at a committed offset with ranges ahead of it, of which there may be any number. Refused range by range: an
    // empty one (10), one not above the end before it (11); then over 128 ranges (12). A caller whose ranges are refused can still
    // `resume` at committed: what was acked ahead of it comes again.
    pub fn resume_with_ahead(
        committed: Offset,
        ahead: &[Range],
    ) -> Result<AckCursor, AckCursorError>
        ensures { ResumedIs committed.0 ahead.now result }
    {
        check_ahead(committed.0, ahead)?;
        let mut cursor = AckCursor::resume(committed);
        for (i, range) in ahead.iter().enumerate() {
            cursor.starts[i] = range.start;
            cursor.ends[i] = range.end;
        }
        cursor.runs = ahead.len();
        Ok(cursor)
    }

    // The same with the starts and the ends in columns of their own, a range for each place that both have.
    pub fn resume_with_columns<'a>(
        committed: Offset,
        starts: &'a [u64],
        ends: &'a [u64],
    ) -> Result<AckCursor, AckCursorError>
        ensures { ResumedIs committed.0 (zipped range starts.now ends.now) result }
    {
        check_columns(committed.0, starts, ends)?;
        let runs = starts.len().min(ends.len());
        let mut cursor = AckCursor::resume(committed);
        tables::copy(&mut cursor.starts, 0, starts, runs);
        tables::copy(&mut cursor.ends, 0, ends, runs);
        cursor.runs = runs;
        Ok(cursor)
    }

    // Lists the ranges ahead from the first place on and answers their number; later places stay. Refused, with the list
    // as it was, where they don't fit (20).
    pub fn ahead_ranges(self, out: &mut [Range]) -> Result<usize, Refusal>
        requires { Sound self }
        ensures { answer (as_is result) out.new ≡ listed (view self).ahead out.old }
    {
        let runs = self.runs;
        if out.len() < runs {
            return Err(Refusal::OutTooShort);
        }
        for i in 0..runs {
            out[i] = self.range_at(i);
        }
        Ok(runs)
    }

    // The offset below which all are acked.
    pub fn committed(self) -> Offset
        ensures { result ≡ offset (view self).committed }
    {
        Offset(self.committed)
    }

    // Whether an offset is acked.
    pub fn is_acked(self, offset: Offset) -> bool
        requires { Sound self }
        ensures { result ≡ settled (view self) offset.0 }
    {
        is_acked_in_place(
            self.committed,
            &self.starts,
            &self.ends,
            self.runs,
            offset.0,
        )
    }

    // How many offsets are acked ahead of committed.
    pub fn ahead_len(self) -> u64
        requires { Sound self }
        ensures { result ≡ offsets (view self).ahead }
    {
        let runs = self.runs;
        let mut sum: u64 = 0;
        for i in 0..runs {
            sum += self.ends[i] - self.starts[i];
        }
        sum
    }

    // How many ranges are ahead of committed.
    pub fn ahead_runs(self) -> usize
        requires { Sound self }
        ensures { result ≡ length (view self).ahead }
    {
        self.runs
    }

    // `ack_bounded` at the limit of 128 ranges that every cursor has.
    pub fn ack(self, offset: Offset) -> Acked
        requires { Sound self }
        ensures { Updated self (ack_of result.outcome) result.cursor (ackBounded (view self) offset.0 128) }
    {
        self.ack_bounded(offset, RANGES)
    }

    // Records an ack, and moves committed over what it completes. One that is next to no range and not at committed
    // makes a range more; where there are max_runs already, or 128, it is shed and nothing changes. An ack at committed
    // and one that joins a range make none, and are never shed: what fills the gaps towards committed always lands. A limit of 0 takes
    // acks at committed alone; where 0 stands for no limit, the caller hands in the largest number.
    pub fn ack_bounded(mut self, offset: Offset, max_runs: usize) -> Acked
        requires { Sound self }
        ensures { Updated self (ack_of result.outcome) result.cursor (ackBounded (view self) offset.0 max_runs) }
    {
        let runs = self.runs;
        let plan = plan_ack(
            self.committed,
            &self.starts,
            &self.ends,
            runs,
            offset.0,
            max_runs,
        );
        let noted = plan.noted;
        let on_starts = plan.starts;
        let on_ends = plan.ends;
        apply(&mut self.starts, runs, on_starts);
        apply(&mut self.ends, runs, on_ends);
        self.committed = noted.committed;
        self.runs = noted.runs;
        let outcome = noted.outcome;
        Acked {
            cursor: self,
            outcome,
        }
    }

    // Settles every offset below a bound. A range that the bound lies in, or touches, is swallowed whole. A bound at or
    // below committed changes nothing: committed never moves back. A cursor doesn't know the log, so the caller sees to it that the
    // bound isn't past its end.
    pub fn commit_up_to(mut self, up_to: Offset) -> Committed
        requires { Sound self }
        ensures { Updated self (done result.advanced) result.cursor (commit_up_to (view self) up_to.0) }
    {
        let runs = self.runs;
        let plan = plan_commit(self.committed, &self.starts, &self.ends, runs, up_to.0);
        let moved = plan.moved;
        let on_both = plan.both;
        apply(&mut self.starts, runs, on_both);
        apply(&mut self.ends, runs, on_both);
        self.committed = moved.committed;
        self.runs = moved.runs;
        Committed {
            cursor: self,
            advanced: moved.advanced,
        }
    }

    // The range at a place.
    fn range_at(self, at: usize) -> Range
        requires { Sound self × (at < length (view self).ahead) }
        ensures { result ≡ rangeAt at (view self).ahead }
    {
        Range {
            start: self.starts[at],
            end: self.ends[at],
        }
    }
}

// Whether ranges may stand ahead of committed: all of them are tested before their number is.
fn check_ahead(committed: u64, ahead: &[Range]) -> Result<(), AckCursorError>
    ensures fault { resume_fault result ≡ first (resume_table committed ahead.now) }
    ensures fits { IfOk result (λ x. EndsFit ahead.now) }
{
    let mut last = committed;
    for range in ahead {
        check_range(last, range.start, range.end)?;
        last = range.end;
    }
    if RANGES < ahead.len() {
        return Err(AckCursorError::TooManyRuns);
    }
    Ok(())
}

// Whether a range may stand behind an end.
fn check_range(prev_end: u64, start: u64, end: u64) -> Result<(), AckCursorError>
    ensures fault { resume_fault result ≡ first (range_table prev_end (range start end)) }
    ensures fits { end ≤ MAX }
{
    if end <= start {
        return Err(AckCursorError::EmptyRange { start, end });
    }
    if start <= prev_end {
        return Err(AckCursorError::NotSortedDisjointAndAboveCommitted { start, prev_end });
    }
    Ok(())
}
