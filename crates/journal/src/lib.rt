// The journal's blocks: writing one, telling whether it is sound, walking from group to group, and reading a group's
// payload. An area is 1 to 128 blocks of 512 bytes; whatever is no such area, and whatever part is no block, is
// refused as 4.
#![tactic(auto)]

ghost use Rattle.std.specs.Prelude.{◌≡◌, suc, ◌+◌, ◌*◌, ◌-◌, ◌≤◌, ◌<◌, min, length, take, drop, replicate, ◌++◌};
ghost use Rattle.types.specs.Table.{answer};
ghost use Rattle.types.specs.Refused.{as_is, result_of, option_of};
ghost use Rattle.crc.specs.Seal.{sealed};
ghost use Rattle.journal.specs.Blocks.{bodies_for, Counted, used_in, chunk_of, opening, body_block, zero_block};
ghost use Rattle.journal.specs.Area.{bad_length, outside};
ghost use Rattle.journal.specs.Sound.{is_kind, has_header_kind, well_formed, sound_but_fit, sound_but_number, sound_header, sound_body};
ghost use Rattle.std.proofs.Math.Option.{some};
ghost use Rattle.journal.specs.Walks.{first_unsound, or_unsound, group_at, header_behind, contents};
ghost use Rattle.journal.specs.Answers.{fill, write_block, walk_in, read_payload, header_in, header_bytes, block_of, turn_of, walked_of};

use types::refusals::Refusal;

// What the header of a group says: its number, the generation ceiling, and the lengths of the cursor snapshot and of
// the attempt snapshot.
#[repr(C)]
#[derive(Clone, Copy)]
pub struct Header {
    pub number: u32,
    pub ceiling: u64,
    pub cursor_len: u16,
    pub attempt_len: u16,
}

// A block to be written: a header, body `index`, from 1, of the payload, or zeros.
#[derive(Clone, Copy)]
pub enum Block {
    Header(Header),
    Body { number: u32, index: u8 },
    Zeros,
}

// Where a walk ended: the header block of the last group, if there was one, the number expected next, and the block where it would
// stand.
#[derive(Clone, Copy)]
pub struct Stop {
    pub last: Option<usize>,
    pub number: u64,
    pub block: usize,
}

// Whether an area of this length is refused.
pub fn bad_length(len: usize) -> bool
    ensures { result ≡ bad_length len }
{
    if len == 0 {
        return true;
    }
    if len % 512 != 0 {
        return true;
    }
    65536 < len
}

// Whether an area of this length is refused, or has no block `at`.
pub fn outside(len: usize, at: usize) -> bool
    ensures { result ≡ outside len at }
{
    if bad_length(len) {
        return true;
    }
    len / 512 <= at
}

// Puts the check behind the first 508 bytes of a block.
fn seal(block: &mut [u8])
    requires { length block.old ≡ 512 }
    ensures { block.new ≡ sealed (take 508 block.old) }
{
    let check = crc::crc32c(&block[..508]);
    let _ = raw::write_u32(block, 508, check);
}

// Fills a block with its first eight bytes, and zeros behind them.
fn open_block(block: &mut [u8], kind: u8, second: u8, third: u16, number: u32)
    requires { length block.old ≡ 512 }
    ensures { block.new ≡ opening kind second third number ++ replicate 504 0 }
{
    raw::clear(block);
    block[0] = kind;
    block[1] = second;
    let _ = raw::write_u16(block, 2, third);
    let _ = raw::write_u32(block, 4, number);
}

// Fills a block with the header of a group. A part of another length than 512 bytes is refused as 4.
fn write_header(block: &mut [u8], header: Header) -> Result<(), Refusal>
    ensures { answer (as_is result) block.new ≡ fill (header_bytes header) block.old }
{
    if block.len() != 512 {
        return Err(Refusal::BadArea);
    }
    let bodies = bodies_for(header.cursor_len, header.attempt_len);
    open_block(block, 1, (bodies % 256) as u8, 0, header.number);
    let _ = raw::write_u64(block, 8, header.ceiling);
    let _ = raw::write_u16(block, 16, header.cursor_len);
    let _ = raw::write_u16(block, 18, header.attempt_len);
    seal(block);
    Ok(())
}

// Fills a block with a body that has these payload bytes.
fn put_body(block: &mut [u8], number: u32, index: u8, chunk: &[u8])
    requires { (length block.old ≡ 512) × (length chunk.now ≤ 500) }
    ensures { block.new ≡ body_block number index chunk.now }
{
    open_block(block, 2, index, chunk.len() as u16, number);
    let _ = raw::write_bytes(block, 8, chunk);
    seal(block);
}

// Fills a block with body `index`, counted from 1, of a payload: 500 of its bytes, or what is left of them behind those
// of the bodies before. Index 0, which no body has, takes the bytes of body 1. A part of another length than 512 bytes
// is refused as 4.
fn write_body(block: &mut [u8], number: u32, index: u8, payload: &[u8]) -> Result<(), Refusal>
    ensures { answer (as_is result) block.new ≡ fill (body_block number index (chunk_of index payload.now)) block.old }
{
    if block.len() != 512 {
        return Err(Refusal::BadArea);
    }
    let from = chunk_start(index, payload.len());
    let to = (from + 500).min(payload.len());
    put_body(block, number, index, &payload[from..to]);
    Ok(())
}

// Fills a block with zeros. A part of another length than 512 bytes is refused as 4.
fn write_zeros(block: &mut [u8]) -> Result<(), Refusal>
    ensures { answer (as_is result) block.new ≡ fill zero_block block.old }
{
    if block.len() != 512 {
        return Err(Refusal::BadArea);
    }
    raw::clear(block);
    Ok(())
}

// Fills block `at` of an area: the writer is handed its 512 bytes and nothing more. An area of a length that is refused,
// and one that has no such block, is 4.
pub fn write_block(area: &mut [u8], at: usize, block: Block, payload: &[u8]) -> Result<(), Refusal>
    ensures { answer (as_is result) area.new ≡ write_block at (block_of block payload.now) area.old }
{
    if outside(area.len(), at) {
        return Err(Refusal::BadArea);
    }
    let start = 512 * at;
    let end = start + 512;
    match block {
        Block::Header(header) => write_header(&mut area[start..end], header),
        Block::Body { number, index } => write_body(&mut area[start..end], number, index, payload),
        Block::Zeros => write_zeros(&mut area[start..end]),
    }
}

// Whether this is a block of that kind with a right check.
fn is_kind(block: &[u8], kind: u8) -> bool
    ensures { result ≡ is_kind kind block.now }
{
    if block.len() != 512 {
        return false;
    }
    if block[0] != kind {
        return false;
    }
    crc::is_sealed(block)
}

// Whether a block has kind 1 and a right check.
pub fn is_head(block: &[u8]) -> bool
    ensures { result ≡ has_header_kind block.now }
{
    is_kind(block, 1)
}

// Whether a block is a header sound in all but its number and its fit.
pub fn is_well_formed(block: &[u8]) -> bool
    ensures { result ≡ well_formed block.now }
{
    if !is_head(block) {
        return false;
    }
    if !raw::all_zero(&block[2..4]) {
        return false;
    }
    if !raw::all_zero(&block[20..508]) {
        return false;
    }
    let cursor_len = raw::read_u16(block, 16);
    if cursor_len < 13 {
        return false;
    }
    if 2061 < cursor_len {
        return false;
    }
    let attempt_len = raw::read_u16(block, 18);
    if attempt_len < 9 {
        return false;
    }
    if 1545 < attempt_len {
        return false;
    }
    let bodies = bodies_for(cursor_len, attempt_len);
    if block[1] as u32 != bodies {
        return false;
    }
    true
}

// Whether a block is the header of group `number`, sound in all but its fit.
pub fn is_sound_but_fit(block: &[u8], number: u64) -> bool
    ensures { result ≡ sound_but_fit number block.now }
{
    if !is_well_formed(block) {
        return false;
    }
    let group = raw::read_u32(block, 4) as u64;
    group == number
}

// Whether a block is the sound header of group `number` at block `at`, where no group may pass block `hi`.
pub fn is_sound_header(block: &[u8], hi: usize, number: u64, at: usize) -> bool
    ensures { result ≡ sound_header hi number at block.now }
{
    if !is_sound_but_fit(block, number) {
        return false;
    }
    if hi <= at {
        return false;
    }
    if hi - at <= block[1] as usize {
        return false;
    }
    true
}

// Whether a block at block `at` is a header sound in all but the expected number, where no group may pass block `hi`.
pub fn is_sound_but_number(block: &[u8], hi: usize, at: usize) -> bool
    ensures { result ≡ sound_but_number hi at block.now }
{
    let number = raw::read_u32(block, 4) as u64;
    is_sound_header(block, hi, number, at)
}

// Whether a block is the sound body `index` of group `number`, with this many bytes used.
pub fn is_sound_body(block: &[u8], number: u64, index: u8, used: u16) -> bool
    ensures { result ≡ sound_body number index used block.now }
{
    if !is_kind(block, 2) {
        return false;
    }
    let owner = raw::read_u32(block, 4) as u64;
    if owner != number {
        return false;
    }
    if block[1] != index {
        return false;
    }
    let bytes = raw::read_u16(block, 2);
    if bytes != used {
        return false;
    }
    let from = (8 + used as usize).min(508);
    raw::all_zero(&block[from..508])
}

// Bytes that body `index` of `bodies` is to use, of `total`.
fn used_in(index: usize, bodies: usize, total: usize) -> u16
    requires { Counted bodies total }
    ensures { result ≡ used_in index bodies total }
{
    if index < bodies {
        return 500;
    }
    (total - 500 * (bodies - 1)) as u16
}

// The block after the bodies of the group whose header stands at block `at`: the first unsound one of them is 5.
fn bodies_at(
    area: &[u8],
    number: u64,
    at: usize,
    bodies: usize,
    total: usize,
) -> Result<usize, Refusal>
    requires { Counted bodies total × (512 * (at + 1 + bodies) ≤ length area.now) }
    ensures { result_of (λ e. some e) result ≡ turn_of (or_unsound (first_unsound area.now number at bodies total bodies 1) (at + suc bodies)) }
{
    for j in 1..bodies + 1 {
        let from = 512 * (at + j);
        let to = from + 512;
        let used = used_in(j, bodies, total);
        if !is_sound_body(&area[from..to], number, j as u8, used) {
            return Err(Refusal::Damaged { block: at + j });
        }
    }
    Ok(at + 1 + bodies)
}

// The block after the group that stands at block `at`, where group `number` is expected: one turn of the walk. No sound header is
// none, and a sound one that counts an unsound body is 5.
fn group_at(area: &[u8], hi: usize, number: u64, at: usize) -> Result<Option<usize>, Refusal>
    requires { (at < hi) × (512 * hi ≤ length area.now) }
    ensures { result_of (option_of (λ e. e)) result ≡ turn_of (group_at area.now hi number at) }
{
    let from = 512 * at;
    let to = from + 512;
    let block = &area[from..to];
    if !is_sound_header(block, hi, number, at) {
        return Ok(None);
    }
    let bodies = block[1] as usize;
    let cursor_len = raw::read_u16(block, 16) as usize;
    let attempt_len = raw::read_u16(block, 18) as usize;
    let behind = bodies_at(area, number, at, bodies, cursor_len + attempt_len)?;
    Ok(Some(behind))
}

// The walk from a block on, where a number is expected first; no group may pass block `hi` or the area's end. It ends
// where no sound header stands; a sound header that counts an unsound body is 5, an area of a length that is refused 4.
// A turn tests its header and the bodies that it counts, and the next one begins behind them: no check is computed twice.
pub fn walk(area: &[u8], hi: usize, first_number: u64, first_block: usize) -> Result<Stop, Refusal>
    ensures { walked_of result ≡ walk_in hi first_number first_block area.now }
{
    if bad_length(area.len()) {
        return Err(Refusal::BadArea);
    }
    let end = hi.min(area.len() / 512);
    let mut last = None;
    let mut number = first_number;
    let mut at = first_block;
    while at < end {
        let Some(behind) = group_at(area, end, number, at)? else {
            break;
        };
        last = Some(at);
        number += 1;
        at = behind;
    }
    Ok(Stop {
        last,
        number,
        block: at,
    })
}

// Whether a block behind block `at`, and before block `hi`, has kind 1 and a right check.
pub fn header_behind(area: &[u8], hi: usize, at: usize) -> bool
    ensures { result ≡ header_behind area.now hi at }
{
    let end = hi.min(area.len() / 512);
    if end <= at {
        return false;
    }
    for i in at + 1..end {
        let from = 512 * i;
        let to = from + 512;
        if is_head(&area[from..to]) {
            return true;
        }
    }
    false
}

// What a header says. Bytes that a part of another length lacks are read as zeros.
pub fn read_header(block: &[u8]) -> Header
    ensures { result ≡ header_in block.now }
{
    let number = raw::read_u32(block, 4);
    let ceiling = raw::read_u64(block, 8);
    let cursor_len = raw::read_u16(block, 16);
    let attempt_len = raw::read_u16(block, 18);
    Header {
        number,
        ceiling,
        cursor_len,
        attempt_len,
    }
}

// Copies a payload of `total` bytes, which begins in the body at block `first`, to the front of `out`.
fn copy_payload(area: &[u8], first: usize, total: usize, out: &mut [u8])
    requires { (512 * (first + bodies_for total) ≤ length area.now) × (total ≤ length out.old) }
    ensures { out.new ≡ take total (contents area.now (bodies_for total) first) ++ drop total out.old }
{
    let mut at = first;
    let mut copied: usize = 0;
    while copied < total {
        let size = (total - copied).min(500);
        let from = 512 * at + 8;
        let to = from + size;
        let _ = raw::write_bytes(out, copied, &area[from..to]);
        copied += size;
        at += 1;
    }
}

// Reads the payload of the group whose header stands at block `at` to the front of `out`, and answers how many bytes it
// has. It goes by the header's lengths and tests no check. A group that does not lie in the area is 4; a shorter `out`
// is 20, and keeps what it held.
pub fn read_payload(area: &[u8], at: usize, out: &mut [u8]) -> Result<usize, Refusal>
    ensures { answer (as_is result) out.new ≡ read_payload at area.now out.old }
{
    if outside(area.len(), at) {
        return Err(Refusal::BadArea);
    }
    let from = 512 * at;
    let to = from + 512;
    let header = read_header(&area[from..to]);
    let total = header.cursor_len as usize + header.attempt_len as usize;
    let bodies = bodies_for(header.cursor_len, header.attempt_len);
    if outside(area.len(), at + bodies as usize) {
        return Err(Refusal::BadArea);
    }
    if out.len() < total {
        return Err(Refusal::OutTooShort);
    }
    copy_payload(area, at + 1, total, out);
    Ok(total)
}

// Bodies for the two snapshots of a group.
pub fn bodies_for(cursor_len: u16, attempt_len: u16) -> u32
    ensures { result ≡ bodies_for (cursor_len + attempt_len) }
{
    (cursor_len as u32 + attempt_len as u32 + 499) / 500
}

// Where the bytes of body `index` begin in a payload of `len` bytes.
fn chunk_start(index: u8, len: usize) -> usize
    ensures { result ≡ min (500 * (index - 1)) len }
{
    if index == 0 {
        return 0;
    }
    (500 * (index as usize - 1)).min(len)
}
