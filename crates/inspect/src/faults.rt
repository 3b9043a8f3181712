// What stands in a block of a journal, and which test one that isn't sound fails first (SPEC.md, "Sound blocks"): as the header or the
// body that is expected at its place (`header_verdict`, `body_verdict`), or as what it says it is (`by_itself`).
ghost use Rattle.std.specs.Prelude.{◌≡◌, length};
ghost use Rattle.inspect.specs.Verdicts.{opening_verdict, sizes_verdict, header_rest, header_verdict, body_rest, body_verdict, own_body_verdict};
ghost use Rattle.inspect.specs.Verdicts.{seen};

// The tests of a block: it has 512 bytes; its kind; its check; its group number; zeros where they are laid down; the lengths of
// the two snapshots; the body count; the group fits the area. Of a body: its index, and the bytes that it uses.
#[derive(Clone, Copy, Debug, PartialEq, Eq)]
pub enum Fault {
    Length,
    Kind,
    Check,
    Number,
    Zeros,
    CursorLength,
    AttemptLength,
    Count,
    Fit,
    Index,
    Used,
}

// What a block is by itself: zeros, a header or a body.
#[derive(Clone, Copy, Debug, PartialEq, Eq)]
pub enum Seen {
    Empty,
    Header,
    Body,
}

// The last tests of a header at block `at`: its lengths, its body count, and that its group doesn't pass block `hi`.
fn sizes_verdict(block: &[u8], hi: usize, at: usize) -> Result<(), Fault>
    requires { length block.now ≡ 512 }
    ensures { result ≡ sizes_verdict hi at block.now }
{
    let header = journal::read_header(block);
    if header.cursor_len < 13 || 2061 < header.cursor_len {
        return Err(Fault::CursorLength);
    }
    if header.attempt_len < 9 || 1545 < header.attempt_len {
        return Err(Fault::AttemptLength);
    }
    let bodies = block[1] as usize;
    let counted = journal::bodies_for(header.cursor_len, header.attempt_len);
    if bodies != counted as usize {
        return Err(Fault::Count);
    }
    if hi <= at || hi - at <= bodies {
        return Err(Fault::Fit);
    }
    Ok(())
}

// The first tests of a block: that it has 512 bytes, its kind, its check and its group number.
fn opening_verdict(block: &[u8], kind: u8, number: u64) -> Result<(), Fault>
    ensures { result ≡ opening_verdict kind number block.now }
{
    if block.len() != 512 {
        return Err(Fault::Length);
    }
    if block[0] != kind {
        return Err(Fault::Kind);
    }
    if !crc::is_sealed(block) {
        return Err(Fault::Check);
    }
    let group = raw::read_u32(block, 4) as u64;
    if group != number {
        return Err(Fault::Number);
    }
    Ok(())
}

// The tests of a header after those: zeros, then its sizes.
fn header_rest(block: &[u8], hi: usize, at: usize) -> Result<(), Fault>
    requires { length block.now ≡ 512 }
    ensures { result ≡ header_rest hi at block.now }
{
    if !raw::all_zero(&block[2..4]) {
        return Err(Fault::Zeros);
    }
    if !raw::all_zero(&block[20..508]) {
        return Err(Fault::Zeros);
    }
    sizes_verdict(block, hi, at)
}

// Whether a block is the sound header of group `number` at block `at`, where no group may pass block `hi`.
pub fn header_verdict(block: &[u8], hi: usize, number: u64, at: usize) -> Result<(), Fault>
    ensures { result ≡ header_verdict hi number at block.now }
{
    opening_verdict(block, 1, number)?;
    header_rest(block, hi, at)
}

// The tests of a body after the first ones: its index, the bytes used, and zeros behind them.
fn body_rest(block: &[u8], index: usize, used: usize) -> Result<(), Fault>
    requires { length block.now ≡ 512 }
    ensures { result ≡ body_rest index used block.now }
{
    if block[1] as usize != index {
        return Err(Fault::Index);
    }
    let bytes = raw::read_u16(block, 2) as usize;
    if bytes != used {
        return Err(Fault::Used);
    }
    let from = (8 + bytes).min(508);
    if !raw::all_zero(&block[from..508]) {
        return Err(Fault::Zeros);
    }
    Ok(())
}

// Whether a block is the sound body `index` of group `number`, with this many bytes used.
pub fn body_verdict(block: &[u8], number: u64, index: usize, used: usize) -> Result<(), Fault>
    ensures { result ≡ body_verdict number index used block.now }
{
    opening_verdict(block, 2, number)?;
    body_rest(block, index, used)
}

// The body of group `number` that a block says it is: from 1 on, and with at most 500 bytes used.
fn own_body_verdict(block: &[u8], number: u64) -> Result<(), Fault>
    requires { length block.now ≡ 512 }
    ensures { result ≡ own_body_verdict number block.now }
{
    let index = (block[1] as usize).max(1);
    let used = (raw::read_u16(block, 2) as usize).min(500);
    body_verdict(block, number, index, used)
}

// What a block at `at` is by itself: zeros, or sound as the header or the body that it says it is, of the group that it names.
pub fn by_itself(block: &[u8], hi: usize, at: usize) -> Result<Seen, Fault>
    ensures { result ≡ seen hi at block.now }
{
    if block.len() != 512 {
        return Err(Fault::Length);
    }
    if raw::all_zero(block) {
        return Ok(Seen::Empty);
    }
    let group = raw::read_u32(block, 4) as u64;
    if block[0] == 2 {
        own_body_verdict(block, group)?;
        return Ok(Seen::Body);
    }
    header_verdict(block, hi, group, at)?;
    Ok(Seen::Header)
}
