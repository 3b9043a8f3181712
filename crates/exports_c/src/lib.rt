// What a program in another language links: the exported functions, each one call of the library `exports` with its very clauses. The names
// and the symbols are those of the header.
#![tactic(auto)]

ghost use Rattle.std.specs.Prelude.{◌≡◌};
ghost use Rattle.types.specs.Keyed.{entries};
ghost use Rattle.types.specs.Zipped.{zipped};
ghost use Rattle.crc.specs.Crc32c.{crc};
ghost use Rattle.cursor.specs.Ranges.{range};
ghost use Rattle.attempt.specs.Snapshot.{encode_into, encode_into2};
ghost use Rattle.answers.specs.Numbers.{one_value, values};
ghost use Rattle.exports.specs.Answers.{crossed, cross};
ghost use Rattle.exports.specs.Snapshots.{columns, encode_ranges, decode_ranges, decode_pairs};
ghost use Rattle.cursor.specs.Cursor.{ackBounded};
ghost use Rattle.cursor.specs.View.{view, Sound};
ghost use Rattle.exports.specs.InPlace.{AckedInPlace};
ghost use Rattle.exports.specs.Abi.{abi};

use answers::Numbers;
use cursor::AckCursor;

// The check of the bytes.
#[unsafe(no_mangle)]
pub extern "C" fn ninotskev_crc32c(bytes: &[u8]) -> u32
    ensures { result ≡ crc bytes.now }
{
    exports::ninotskev_crc32c(bytes)
}

// Writes the snapshot of a cursor, given by its committed offset and a range for each place that both columns have, from a
// position on. Answers the position behind it, or 10, 11, 12 or 20.
#[unsafe(no_mangle)]
pub extern "C" fn ninotskev_encode_cursor<'a>(
    committed: u64,
    starts: &'a [u64],
    ends: &'a [u64],
    out: &mut [u8],
    at: usize,
) -> Numbers
    ensures { crossed result out.new ≡ cross one_value (encode_ranges committed (zipped range starts.now ends.now) at out.old) }
{
    exports::ninotskev_encode_cursor(committed, starts, ends, out, at)
}

// Reads the snapshot of a cursor, and puts the starts and the ends of its ranges at the front of two lent columns. Answers the
// committed offset and the number of ranges, or 6 to 12, or 20 where a column is too short.
#[unsafe(no_mangle)]
pub extern "C" fn ninotskev_decode_cursor(
    input: &[u8],
    starts: &mut [u64],
    ends: &mut [u64],
) -> Numbers
    ensures { crossed result (columns starts.new ends.new) ≡ cross values (decode_ranges input.now (columns starts.old ends.old)) }
{
    exports::ninotskev_decode_cursor(input, starts, ends)
}

// Writes the snapshot of attempt counts, a pair for each place that both columns have, from a position on. Answers the
// position behind it, or 19 or 20.
#[unsafe(no_mangle)]
pub extern "C" fn ninotskev_encode_attempts<'a>(
    offsets: &'a [u64],
    attempts: &'a [u32],
    out: &mut [u8],
    at: usize,
) -> Numbers
    ensures { crossed result out.new ≡ cross one_value (encode_into (entries offsets.now attempts.now) at out.old) }
{
    exports::ninotskev_encode_attempts(offsets, attempts, out, at)
}

// The same in version 2: all offsets, then all attempts.
#[unsafe(no_mangle)]
pub extern "C" fn ninotskev_encode_attempts_v2<'a>(
    offsets: &'a [u64],
    attempts: &'a [u32],
    out: &mut [u8],
    at: usize,
) -> Numbers
    ensures { crossed result out.new ≡ cross one_value (encode_into2 (entries offsets.now attempts.now) at out.old) }
{
    exports::ninotskev_encode_attempts_v2(offsets, attempts, out, at)
}

// Reads the snapshot of attempt counts, of either version, and puts its offsets and its counts at the front of two lent columns.
// Answers the number of pairs, or 13 to 19, or 20 where a column is too short.
#[unsafe(no_mangle)]
pub extern "C" fn ninotskev_decode_attempts(
    input: &[u8],
    offsets: &mut [u64],
    attempts: &mut [u32],
) -> Numbers
    ensures { crossed result (columns offsets.new attempts.new) ≡ cross values (decode_pairs input.now (columns offsets.old attempts.old)) }
{
    exports::ninotskev_decode_attempts(input, offsets, attempts)
}

// Records an ack, as `AckCursor::ack` does. Answers 0 where it was new, 1 for a duplicate, and 29 where it is shed.
#[unsafe(no_mangle)]
pub extern "C" fn ninotskev_cursor_ack(cursor: &mut AckCursor, offset: u64) -> u64
    requires { Sound cursor.old }
    ensures { AckedInPlace cursor.old result cursor.new (ackBounded (view cursor.old) offset 128) }
{
    exports::in_place::ninotskev_cursor_ack(cursor, offset)
}

// The number of this interface.
#[unsafe(no_mangle)]
pub extern "C" fn ninotskev_exports_abi() -> u64
    ensures { result ≡ abi }
{
    exports::abi::ninotskev_exports_abi()
}
