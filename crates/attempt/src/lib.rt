// The attempt snapshot: delivery counts as bytes that outlast a restart, closed by a check. Its versions and where the numbers of
// a pair stand are known here alone. Version 1 is the original's; version 2 has all offsets first, so that counts which change
// leave the offsets' bytes as they are.
#![tactic(auto)]

ghost use Rattle.std.specs.Prelude.{◌≡◌, ◌++◌, ◌+◌, ◌*◌, ◌<◌, ◌≤◌, min, length, drop, get_or};
ghost use Rattle.types.specs.Limits.{MAX};
ghost use Rattle.types.specs.Refusal.{done};
ghost use Rattle.types.specs.Table.{answer, checked};
ghost use Rattle.types.specs.Refused.{refusal_of, as_is};
ghost use Rattle.types.specs.Keyed.{entry, entries};
ghost use Rattle.types.specs.Lists.{entry_of, entries_of, counted};
ghost use Rattle.raw.specs.Bytes.{le, overwrite};
ghost use Rattle.attempt.specs.Snapshot.{apart, pairs_bytes, body_bytes, encode_version, encode_into, encode_into2};
ghost use Rattle.attempt.specs.Versions.{byte_of, KnownIs};
ghost use Rattle.attempt.specs.Snapshot.{offset_at, attempt_at, read_pair, pairs_as, pairs_of, pair_count};
ghost use Rattle.attempt.specs.Snapshot.{pairs_table, decode_table, decode_into};
ghost use Rattle.attempt.specs.Codec.{blank, offsets_of, attempts_of, attempt_error, decode_of, decoded_of};
ghost use Rattle.attempt.specs.Codec.{encode_front, encode_first, encode_first2};

pub mod pairs;

use types::Pair;
use types::limits::PAIRS;
use types::refusals::Refusal;

// The length of a snapshot without pairs: version, count and check.
pub const ATTEMPT_SNAPSHOT_MIN_LEN: usize = 9;

// The versions of a snapshot: with each attempt count after its offset, as the original has it, or after all offsets.
#[derive(Clone, Copy, Debug, PartialEq, Eq)]
pub enum Version {
    One,
    Two,
}

impl Version {
    // The byte that a snapshot begins with.
    fn byte(self) -> u8
        ensures { result ≡ byte_of self }
    {
        match self {
            Version::One => 1,
            Version::Two => 2,
        }
    }
}

// The length of a pair: its offset and its attempt count.
const PAIR_LEN: usize = 12;

// The length of a snapshot of so many pairs.
pub fn snapshot_len(count: usize) -> usize
    requires { count ≤ 128 }
    ensures { result ≡ 9 + 12 * count }
{
    ATTEMPT_SNAPSHOT_MIN_LEN + PAIR_LEN * count
}

// Why bytes are no attempt snapshot: refusals 13 to 19.
#[derive(Clone, Copy, Debug, PartialEq, Eq)]
pub enum AttemptSnapshotError {
    Truncated,
    UnsupportedVersion(u8),
    BadLength { len: usize },
    CountMismatch { declared: u32, actual: u64 },
    BadCrc,
    NotSorted { offset: u64, prev_offset: u64 },
    TooManyPairs,
}

impl From<AttemptSnapshotError> for Refusal {
    ghost from_gives = { λ error refusal. refusal_of refusal ≡ attempt_error error };

    fn from(error: AttemptSnapshotError) -> Refusal {
        match error {
            AttemptSnapshotError::Truncated => Refusal::AttemptTruncated,
            AttemptSnapshotError::UnsupportedVersion(version) =>
                Refusal::AttemptUnsupportedVersion { version },
            AttemptSnapshotError::BadLength { len } => Refusal::AttemptBadLength { len },
            AttemptSnapshotError::CountMismatch { declared, actual } => Refusal::CountMismatch {
                declared,
                actual,
            },
            AttemptSnapshotError::BadCrc => Refusal::AttemptBadCrc,
            AttemptSnapshotError::NotSorted {
                offset,
                prev_offset,
            } => Refusal::NotSorted {
                offset,
                prev_offset,
            },
            AttemptSnapshotError::TooManyPairs => Refusal::TooManyPairs,
        }
    }
}

// The pairs of a snapshot: the first `count` of the array, whose other places have none.
#[derive(Clone, Copy)]
pub struct Decoded {
    pub pairs: [Pair; PAIRS],
    pub count: usize,
}

// An array without pairs.
fn no_pairs() -> [Pair; PAIRS]
    ensures { result ≡ blank }
{
    [Pair {
        offset: 0,
        attempt: 0,
    }; PAIRS]
}

// Where the offset of pair i stands: in version 2 after the other offsets.
fn offset_at(version: Version, i: usize) -> usize
    requires { 5 + 12 * i ≤ MAX }
    ensures { result ≡ offset_at (apart (byte_of version)) i }
{
    match version {
        Version::One => 5 + PAIR_LEN * i,
        Version::Two => 5 + 8 * i,
    }
}

// Where the attempt count of pair i of `count` stands: in version 2 after all offsets, otherwise after its own.
fn attempt_at(version: Version, count: usize, i: usize) -> usize
    requires { (i < count) × (5 + 12 * count ≤ MAX) }
    ensures { result ≡ attempt_at (apart (byte_of version)) count i }
{
    match version {
        Version::One => 13 + PAIR_LEN * i,
        Version::Two => 5 + 8 * count + 4 * i,
    }
}

// Writes the two numbers of a pair, each at its position.
fn put_pair(out: &mut [u8], to_offset: usize, to_attempt: usize, offset: u64, attempt: u32)
    requires { (to_offset + 8 ≤ length out.old) × (to_attempt + 4 ≤ length out.old) }
    ensures { out.new ≡ overwrite to_attempt (le 4 attempt) (overwrite to_offset (le 8 offset) out.old) }
{
    let _ = raw::write_u64(out, to_offset, offset);
    let _ = raw::write_u32(out, to_attempt, attempt);
}

// Writes the pairs of two columns, of which there are `count`, into a snapshot that begins at a position.
fn put_pairs<'a>(
    version: Version,
    offsets: &'a [u64],
    attempts: &'a [u32],
    count: usize,
    out: &mut [u8],
    at: usize,
)
    requires { (count ≡ min (length offsets.now) (length attempts.now)) × (at + (5 + 12 * count) ≤ length out.old) }
    ensures { out.new ≡ overwrite (at + 5) (pairs_bytes (apart (byte_of version)) (entries offsets.now attempts.now)) out.old }
{
    for i in 0..count {
        let to_offset = at + offset_at(version, i);
        let to_attempt = at + attempt_at(version, count, i);
        put_pair(out, to_offset, to_attempt, offsets[i], attempts[i]);
    }
}

// Writes all but the check.
fn put_body<'a>(
    version: Version,
    offsets: &'a [u64],
    attempts: &'a [u32],
    count: usize,
    out: &mut [u8],
    at: usize,
)
    requires { (count ≡ min (length offsets.now) (length attempts.now)) × (count ≤ 128) × (at + (5 + 12 * count) ≤ length out.old) }
    ensures { out.new ≡ overwrite at (body_bytes (byte_of version) (entries offsets.now attempts.now)) out.old }
{
    out[at] = version.byte();
    let _ = raw::write_u32(out, at + 1, count as u32);
    put_pairs(version, offsets, attempts, count, out, at);
}

// Writes a version of the snapshot of attempt counts, a pair for each place that both columns have, from a position on. Over 128
// pairs are refused (19), then a snapshot without room (20).
pub fn encode_columns<'a>(
    version: Version,
    offsets: &'a [u64],
    attempts: &'a [u32],
    out: &mut [u8],
    at: usize,
) -> Result<usize, Refusal>
    ensures { answer (as_is result) out.new ≡ encode_version (byte_of version) (entries offsets.now attempts.now) at out.old }
{
    let count = offsets.len().min(attempts.len());
    if PAIRS < count {
        return Err(Refusal::TooManyPairs);
    }
    let len = snapshot_len(count);
    if out.len() < len {
        return Err(Refusal::OutTooShort);
    }
    if out.len() - len < at {
        return Err(Refusal::OutTooShort);
    }
    put_body(version, offsets, attempts, count, out, at);
    let end = at + (5 + PAIR_LEN * count);
    let check = crc::crc32c(&out[at..end]);
    let _ = raw::write_u32(out, end, check);
    Ok(at + len)
}

// Writes a version of the snapshot of pairs from a position on, in their order. Over 128 pairs are refused (19), then a snapshot
// without room (20).
fn write_pairs(
    version: Version,
    pairs: &[Pair],
    out: &mut [u8],
    at: usize,
) -> Result<usize, Refusal>
    ensures { answer (as_is result) out.new ≡ encode_version (byte_of version) (entries_of pairs.now) at out.old }
{
    let count = pairs.len();
    if PAIRS < count {
        return Err(Refusal::TooManyPairs);
    }
    let mut offsets = [0u64; PAIRS];
    let mut attempts = [0u32; PAIRS];
    for i in 0..count {
        offsets[i] = pairs[i].offset;
        attempts[i] = pairs[i].attempt;
    }
    encode_columns(version, &offsets[..count], &attempts[..count], out, at)
}

// Writes a version of the snapshot of the first `count` pairs, likewise.
fn write_first(
    version: Version,
    pairs: [Pair; PAIRS],
    count: usize,
    out: &mut [u8],
    at: usize,
) -> Result<usize, Refusal>
    ensures { answer (as_is result) out.new ≡ encode_front (byte_of version) count pairs at out.old }
{
    if PAIRS < count {
        return Err(Refusal::TooManyPairs);
    }
    write_pairs(version, &pairs[..count], out, at)
}

// Writes the snapshot of the first `count` pairs from a position on, in their order. Over 128 pairs are refused (19), then a
// snapshot without room (20).
pub fn encode_pairs(
    pairs: [Pair; PAIRS],
    count: usize,
    out: &mut [u8],
    at: usize,
) -> Result<usize, Refusal>
    ensures { answer (as_is result) out.new ≡ encode_first count pairs at out.old }
{
    write_first(Version::One, pairs, count, out, at)
}

// The same in version 2.
pub fn encode_pairs_v2(
    pairs: [Pair; PAIRS],
    count: usize,
    out: &mut [u8],
    at: usize,
) -> Result<usize, Refusal>
    ensures { answer (as_is result) out.new ≡ encode_first2 count pairs at out.old }
{
    write_first(Version::Two, pairs, count, out, at)
}

// Refusals 18 and 19, or the number of pairs.
fn check_pairs(input: &[u8], version: Version, count: usize) -> Result<usize, AttemptSnapshotError>
    requires { 5 + 12 * count ≤ length input.now }
    ensures { decode_of result ≡ checked (pairs_table (pairs_as (byte_of version) count input.now)) (done count) }
{
    let mut prev = raw::read_u64(input, 5);
    for i in 1..count {
        let offset = raw::read_u64(input, offset_at(version, i));
        if offset <= prev {
            return Err(AttemptSnapshotError::NotSorted {
                offset: offset,
                prev_offset: prev,
            });
        }
        prev = offset;
    }
    if PAIRS < count {
        return Err(AttemptSnapshotError::TooManyPairs);
    }
    Ok(count)
}

// The version of this byte, if there is one.
fn known(byte: u8) -> Option<Version>
    ensures { KnownIs byte result }
{
    match byte {
        1 => Some(Version::One),
        2 => Some(Version::Two),
        _ => None,
    }
}

// Refusals 13 to 19, or the number of pairs. Stores nothing.
pub fn check(input: &[u8]) -> Result<usize, AttemptSnapshotError>
    ensures { decode_of result ≡ checked (decode_table input.now) (done (pair_count input.now)) }
{
    let len = input.len();
    if len < ATTEMPT_SNAPSHOT_MIN_LEN {
        return Err(AttemptSnapshotError::Truncated);
    }
    let byte = input[0];
    let Some(version) = known(byte) else {
        return Err(AttemptSnapshotError::UnsupportedVersion(byte));
    };
    let pairs_bytes = len - ATTEMPT_SNAPSHOT_MIN_LEN;
    if pairs_bytes % PAIR_LEN != 0 {
        return Err(AttemptSnapshotError::BadLength { len: len });
    }
    let declared = raw::read_u32(input, 1);
    let count = declared as usize;
    let actual = pairs_bytes / PAIR_LEN;
    if count != actual {
        return Err(AttemptSnapshotError::CountMismatch {
            declared: declared,
            actual: actual as u64,
        });
    }
    if !crc::is_sealed(input) {
        return Err(AttemptSnapshotError::BadCrc);
    }
    check_pairs(input, version, actual)
}

// How many pairs there are to read.
pub fn pairs_of(outcome: Result<usize, AttemptSnapshotError>) -> usize
    ensures { result ≡ counted (decode_of outcome) }
{
    outcome.unwrap_or(0)
}

// How the pairs of bytes lie: as in version 2 where they begin so, and otherwise as in version 1.
fn version_of(input: &[u8]) -> Version
    ensures { apart (byte_of result) ≡ apart (get_or input.now 0 0) }
{
    match input.first() {
        Some(2) => Version::Two,
        _ => Version::One,
    }
}

// Puts the offsets of the n pairs of a snapshot at the front of a lent column.
pub fn read_offsets(input: &[u8], n: usize, offsets: &mut [u64])
    requires { (12 * n ≤ length input.now) × (n ≤ length offsets.old) }
    ensures { offsets.new ≡ offsets_of (pairs_of n input.now) ++ drop n offsets.old }
{
    let version = version_of(input);
    for i in 0..n {
        offsets[i] = raw::read_u64(input, offset_at(version, i));
    }
}

// Puts their attempt counts at the front of another.
pub fn read_attempts(input: &[u8], n: usize, attempts: &mut [u32])
    requires { (12 * n ≤ length input.now) × (n ≤ length attempts.old) }
    ensures { attempts.new ≡ attempts_of (pairs_of n input.now) ++ drop n attempts.old }
{
    let version = version_of(input);
    for i in 0..n {
        attempts[i] = raw::read_u32(input, attempt_at(version, n, i));
    }
}

// Pair i of `count`.
fn get_pair(input: &[u8], count: usize, i: usize) -> Pair
    requires { (i < count) × (12 * count ≤ length input.now) }
    ensures { entry_of result ≡ read_pair (apart (get_or input.now 0 0)) count i input.now }
{
    let version = version_of(input);
    Pair {
        offset: raw::read_u64(input, offset_at(version, i)),
        attempt: raw::read_u32(input, attempt_at(version, count, i)),
    }
}

// Fills the first n places of a lent list with the pairs of a snapshot.
fn fill_pairs(input: &[u8], pairs: &mut [Pair], n: usize)
    requires { (12 * n ≤ length input.now) × (n ≤ length pairs.old) }
    ensures { entries_of pairs.new ≡ pairs_of n input.now ++ drop n (entries_of pairs.old) }
{
    for i in 0..n {
        pairs[i] = get_pair(input, n, i);
    }
}

// The pairs of a snapshot of either version. Refused in this order: too short (13), another version (14), no whole number of pairs
// (15), another number than declared (16), a wrong check (17), an offset not above the one before (18), over 128 pairs (19).
pub fn decode_pairs(input: &[u8]) -> Result<Decoded, AttemptSnapshotError>
    ensures { decoded_of result ≡ decode_into input.now (entries_of blank) }
{
    let count = check(input)?;
    let mut pairs = no_pairs();
    fill_pairs(input, &mut pairs, count);
    Ok(Decoded { pairs, count })
}

// Writes the snapshot of the pairs from a position on, in their order, which has to rise by offset for a decoder to take it. Over 128
// pairs are refused (19), then a snapshot without room (20).
pub fn encode_attempt_snapshot(pairs: &[Pair], out: &mut [u8], at: usize) -> Result<usize, Refusal>
    ensures { answer (as_is result) out.new ≡ encode_into (entries_of pairs.now) at out.old }
{
    write_pairs(Version::One, pairs, out, at)
}

// The same in version 2: all offsets, then all attempts.
pub fn encode_attempt_snapshot_v2(
    pairs: &[Pair],
    out: &mut [u8],
    at: usize,
) -> Result<usize, Refusal>
    ensures { answer (as_is result) out.new ≡ encode_into2 (entries_of pairs.now) at out.old }
{
    write_pairs(Version::Two, pairs, out, at)
}

// Fills a lent list with the pairs of a snapshot, from its first place on; the other places stay. Refused as `decode_pairs`
// refuses, and then where the list is too short (20). Without the counts of a refused snapshot every message begins again at its
// first attempt.
pub fn decode_attempt_snapshot(input: &[u8], pairs: &mut [Pair]) -> Result<usize, Refusal>
    ensures { answer (as_is result) (entries_of pairs.new) ≡ decode_into input.now (entries_of pairs.old) }
{
    let n = check(input)?;
    if pairs.len() < n {
        return Err(Refusal::OutTooShort);
    }
    fill_pairs(input, pairs, n);
    Ok(n)
}
