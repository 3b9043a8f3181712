// A snapshot in version 2 written pair by pair, for a caller that has no list of its pairs: it is opened with their number, each pair
// goes to its place, and the check closes it.
ghost use Rattle.std.specs.Prelude.{◌+◌, ◌*◌, ◌<◌, ◌≤◌, ◌≡◌, true, ◌∷◌, length, take, drop};
ghost use Rattle.raw.specs.Bytes.{le, overwrite};
ghost use Rattle.crc.specs.Crc32c.{crc};
ghost use Rattle.attempt.specs.Snapshot.{offset_at, attempt_at};

use crate::{PAIR_LEN, Version, put_pair};

// Writes the version and the number of pairs of a snapshot that begins at a position.
pub fn open_v2(count: usize, out: &mut [u8], at: usize)
    requires { (count ≤ 128) × (at + 5 ≤ length out.old) }
    ensures { out.new ≡ overwrite at (2 ∷ le 4 count) out.old }
{
    out[at] = Version::Two.byte();
    let _ = raw::write_u32(out, at + 1, count as u32);
}

// Writes pair i of `count` into it.
pub fn put_v2(out: &mut [u8], at: usize, count: usize, i: usize, offset: u64, attempt: u32)
    requires { (i < count) × (at + (5 + 12 * count) ≤ length out.old) }
    ensures { out.new ≡ overwrite (at + attempt_at true count i) (le 4 attempt) (overwrite (at + offset_at true i) (le 8 offset) out.old) }
{
    let to_offset = at + (5 + 8 * i);
    let to_attempt = at + (5 + 8 * count + 4 * i);
    put_pair(out, to_offset, to_attempt, offset, attempt);
}

// Closes it with the check of all before.
pub fn seal_v2(count: usize, out: &mut [u8], at: usize)
    requires { (count ≤ 128) × (at + (9 + 12 * count) ≤ length out.old) }
    ensures { out.new ≡ overwrite (at + (5 + 12 * count)) (le 4 (crc (take (5 + 12 * count) (drop at out.old)))) out.old }
{
    let end = at + (5 + PAIR_LEN * count);
    let check = crc::crc32c(&out[at..end]);
    let _ = raw::write_u32(out, end, check);
}
