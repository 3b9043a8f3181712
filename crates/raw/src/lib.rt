// Little-endian numbers in byte slices, at any position. Reading past the end sees zeros; a write without room changes
// no byte and says so. Numbers of four and eight bytes that are there are put together from bytes at fixed distances, which
// the compiler makes one load or one store of. And slices of zeros.
#![tactic(auto)]

ghost use Rattle.std.specs.Prelude.{◌≡◌, ◌+◌, ◌≤◌, [], ◌∷◌, ltb, length, replicate, get_or};
ghost use Rattle.types.specs.Refusal.{done, OutTooShort};
ghost use Rattle.types.specs.Refused.{as_is};
ghost use Rattle.types.specs.Table.{◌⇒◌, answer, checked};
ghost use Rattle.raw.specs.Bytes.{all_zero, le, unle, number_at, write};
ghost use Rattle.raw.specs.Word.{four_at, word_at};

use types::refusals::Refusal;

// The number in the eight bytes from i on, all of which are there.
pub fn word_at(bytes: &[u8], i: usize) -> u64
    requires { i + 8 ≤ length bytes.now }
    ensures { result ≡ word_at bytes.now i }
{
    u64::from_le_bytes([
        bytes[i],
        bytes[i + 1],
        bytes[i + 2],
        bytes[i + 3],
        bytes[i + 4],
        bytes[i + 5],
        bytes[i + 6],
        bytes[i + 7],
    ])
}

// The number in the four bytes from i on, all of which are there.
pub fn half_at(bytes: &[u8], i: usize) -> u32
    requires { i + 4 ≤ length bytes.now }
    ensures { result ≡ four_at bytes.now i (i + 1) (i + 2) (i + 3) }
{
    u32::from_le_bytes([bytes[i], bytes[i + 1], bytes[i + 2], bytes[i + 3]])
}

// A byte, 0 past the end.
fn byte_at(bytes: &[u8], i: usize) -> u8
    ensures { result ≡ get_or bytes.now i 0 }
{
    bytes.get(i).copied().unwrap_or(0)
}

// The N bytes from pos on; those past the end are zeros. One by one: a copy of a length that is known only as it runs would be a call of C's.
fn bytes_at<const N: usize>(buf: &[u8], pos: usize) -> [u8; N]
    ensures { unle result ≡ number_at N pos buf.now }
{
    let rest = &buf[pos.min(buf.len())..];
    let mut bytes = [0; N];
    for i in 0..N {
        bytes[i] = byte_at(rest, i);
    }
    bytes
}

pub fn read_u16(buf: &[u8], pos: usize) -> u16
    ensures { result ≡ number_at 2 pos buf.now }
{
    u16::from_le_bytes(bytes_at(buf, pos))
}

pub fn read_u32(buf: &[u8], pos: usize) -> u32
    ensures { result ≡ number_at 4 pos buf.now }
{
    if too_short(buf.len(), pos, 4) {
        return u32::from_le_bytes(bytes_at(buf, pos));
    }
    half_at(buf, pos)
}

pub fn read_u64(buf: &[u8], pos: usize) -> u64
    ensures { result ≡ number_at 8 pos buf.now }
{
    if too_short(buf.len(), pos, 8) {
        return u64::from_le_bytes(bytes_at(buf, pos));
    }
    word_at(buf, pos)
}

// Whether n bytes from pos on would pass the end of `len` bytes.
pub fn too_short(len: usize, pos: usize, n: usize) -> bool
    ensures { result ≡ ltb len (pos + n) }
{
    len < pos || len - pos < n
}

// The end of n bytes from pos on, which lie within `len`.
fn end_of(len: usize, pos: usize, n: usize) -> Result<usize, Refusal>
    ensures { as_is result ≡ checked (ltb len (pos + n) ⇒ OutTooShort ∷ []) (done (pos + n)) }
{
    if too_short(len, pos, n) {
        return Err(Refusal::OutTooShort);
    }
    Ok(pos + n)
}

// A copy of bytes from pos on.
pub fn write_bytes(buf: &mut [u8], pos: usize, bytes: &[u8]) -> Result<usize, Refusal>
    ensures { answer (as_is result) buf.new ≡ write pos bytes.now buf.old }
{
    let end = end_of(buf.len(), pos, bytes.len())?;
    buf[pos..end].copy_from_slice(bytes);
    Ok(end)
}

pub fn write_u16(buf: &mut [u8], pos: usize, x: u16) -> Result<usize, Refusal>
    ensures { answer (as_is result) buf.new ≡ write pos (le 2 x) buf.old }
{
    write_bytes(buf, pos, &u16::to_le_bytes(x))
}

pub fn write_u32(buf: &mut [u8], pos: usize, x: u32) -> Result<usize, Refusal>
    ensures { answer (as_is result) buf.new ≡ write pos (le 4 x) buf.old }
{
    write_bytes(buf, pos, &u32::to_le_bytes(x))
}

pub fn write_u64(buf: &mut [u8], pos: usize, x: u64) -> Result<usize, Refusal>
    ensures { answer (as_is result) buf.new ≡ write pos (le 8 x) buf.old }
{
    write_bytes(buf, pos, &u64::to_le_bytes(x))
}

// Whether every byte is 0.
pub fn all_zero(bytes: &[u8]) -> bool
    ensures { result ≡ all_zero bytes.now }
{
    bytes.iter().all(|byte| *byte == 0)
}

// Fills with zeros.
pub fn clear(bytes: &mut [u8])
    ensures { bytes.new ≡ replicate (length bytes.old) 0 }
{
    bytes.fill(0);
}
