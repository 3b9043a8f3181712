// What programs in other languages call: the snapshots and the check, on numbers and slices. A slice crosses as a pointer
// and a length, a list of ranges or pairs as a column for each field. Nothing is required of a caller but that its slices
// are there, and that one that is written to overlaps no other.
#![tactic(auto)]

ghost use Rattle.std.specs.Prelude.{◌≡◌};
ghost use Rattle.types.specs.Refusal.{done};
ghost use Rattle.types.specs.Refused.{as_is, result_of};
ghost use Rattle.types.specs.Table.{answer, checked};
ghost use Rattle.types.specs.Keyed.{entries};
ghost use Rattle.types.specs.Zipped.{zipped};
ghost use Rattle.crc.specs.Crc32c.{crc};
ghost use Rattle.cursor.specs.Ranges.{range};
ghost use Rattle.attempt.specs.Snapshot.{encode_into, encode_into2};
ghost use Rattle.answers.specs.Numbers.{one_value, figures_values, values};
ghost use Rattle.exports.specs.Answers.{crossed, cross};
ghost use Rattle.exports.specs.Snapshots.{columns, room_rows, encode_ranges, decode_ranges, decode_pairs};

use answers::Numbers;
use attempt::Version;
use cursor::columns::{Figures, check_columns, check_snapshot, encode_columns, read_column};
use types::refusals::Refusal;

pub mod abi;
pub mod in_place;

// The check of the bytes.
pub fn ninotskev_crc32c(bytes: &[u8]) -> u32
    ensures { result ≡ crc bytes.now }
{
    crc::crc32c(bytes)
}

// Writes the snapshot of a cursor, given by its committed offset and a range for each place that both columns have, from a
// position on. Answers the position behind it, or 10, 11, 12 or 20.
pub fn ninotskev_encode_cursor<'a>(
    committed: u64,
    starts: &'a [u64],
    ends: &'a [u64],
    out: &mut [u8],
    at: usize,
) -> Numbers
    ensures { crossed result out.new ≡ cross one_value (encode_ranges committed (zipped range starts.now ends.now) at out.old) }
{
    answers::of_count(encode_cursor(committed, starts, ends, out, at))
}

fn encode_cursor<'a>(
    committed: u64,
    starts: &'a [u64],
    ends: &'a [u64],
    out: &mut [u8],
    at: usize,
) -> Result<usize, Refusal>
    ensures { answer (as_is result) out.new ≡ encode_ranges committed (zipped range starts.now ends.now) at out.old }
{
    check_columns(committed, starts, ends)?;
    let n = starts.len().min(ends.len());
    encode_columns(committed, starts, ends, n, out, at)
}

// Reads the snapshot of a cursor, and puts the starts and the ends of its ranges at the front of two lent columns. Answers the
// committed offset and the number of ranges, or 6 to 12, or 20 where a column is too short.
pub fn ninotskev_decode_cursor(input: &[u8], starts: &mut [u64], ends: &mut [u64]) -> Numbers
    ensures { crossed result (columns starts.new ends.new) ≡ cross values (decode_ranges input.now (columns starts.old ends.old)) }
{
    answers::of_figures(decode_cursor(input, starts, ends))
}

fn decode_cursor(input: &[u8], starts: &mut [u64], ends: &mut [u64]) -> Result<Figures, Refusal>
    ensures { answer (result_of figures_values result) (columns starts.new ends.new) ≡ decode_ranges input.now (columns starts.old ends.old) }
{
    let figures = check_snapshot(input)?;
    let n = figures.runs;
    room_for(n, starts.len(), ends.len())?;
    read_column(input, 9, n, starts);
    read_column(input, 17, n, ends);
    Ok(figures)
}

// Whether so many numbers fit into each of two columns.
fn room_for(n: usize, left: usize, right: usize) -> Result<(), Refusal>
    ensures { as_is result ≡ checked (room_rows n left right) (done tt) }
{
    if left < n || right < n {
        return Err(Refusal::OutTooShort);
    }
    Ok(())
}

// Writes the snapshot of attempt counts, a pair for each place that both columns have, from a position on. Answers the
// position behind it, or 19 or 20.
pub fn ninotskev_encode_attempts<'a>(
    offsets: &'a [u64],
    attempts: &'a [u32],
    out: &mut [u8],
    at: usize,
) -> Numbers
    ensures { crossed result out.new ≡ cross one_value (encode_into (entries offsets.now attempts.now) at out.old) }
{
    answers::of_count(attempt::encode_columns(Version::One, offsets, attempts, out, at))
}

// The same in version 2: all offsets, then all attempts.
pub fn ninotskev_encode_attempts_v2<'a>(
    offsets: &'a [u64],
    attempts: &'a [u32],
    out: &mut [u8],
    at: usize,
) -> Numbers
    ensures { crossed result out.new ≡ cross one_value (encode_into2 (entries offsets.now attempts.now) at out.old) }
{
    answers::of_count(attempt::encode_columns(Version::Two, offsets, attempts, out, at))
}

// Reads the snapshot of attempt counts, of either version, and puts its offsets and its counts at the front of two lent columns.
// Answers the number of pairs, or 13 to 19, or 20 where a column is too short.
pub fn ninotskev_decode_attempts(input: &[u8], offsets: &mut [u64], attempts: &mut [u32]) -> Numbers
    ensures { crossed result (columns offsets.new attempts.new) ≡ cross values (decode_pairs input.now (columns offsets.old attempts.old)) }
{
    answers::of_count(decode_attempts(input, offsets, attempts))
}

fn decode_attempts(
    input: &[u8],
    offsets: &mut [u64],
    attempts: &mut [u32],
) -> Result<usize, Refusal>
    ensures { answer (result_of one_value result) (columns offsets.new attempts.new) ≡ decode_pairs input.now (columns offsets.old attempts.old) }
{
    let n = attempt::check(input)?;
    room_for(n, offsets.len(), attempts.len())?;
    attempt::read_offsets(input, n, offsets);
    attempt::read_attempts(input, n, attempts);
    Ok(n)
}
