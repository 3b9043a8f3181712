// A journal's file in sectors of 4,096 bytes: what sector 0 says of it, and where its blocks stand, one at the front of each sector.
#![tactic(auto)]

ghost use Rattle.std.specs.Prelude.{◌≡◌, false, ◌+◌, ◌*◌, ◌≤◌, length};
ghost use Rattle.journal.specs.Area.{write_at};
ghost use Rattle.sectors.specs.File.{wrong_blocks, wrong_journals, file_bytes, form_of, PlaceIs, front, unread};
ghost use Rattle.sectors.specs.Marks.{mark_of, is_blank, is_begun, state_of};

// The first eight bytes: NINOTSKV.
const MAGIC: u64 = 0x564b_5354_4f4e_494e;

// What sector 0 says of a file: the blocks of a journal, and the journals.
#[derive(Clone, Copy)]
pub struct Layout {
    pub blocks: u32,
    pub journals: u32,
}

// What of sector 0 is wrong, with what it has there; of a wrong length what the file should have.
#[derive(Clone, Copy, Debug, PartialEq, Eq)]
pub enum FormError {
    Magic,
    Version(u32),
    SectorBytes(u32),
    Blocks(u32),
    Journals(u32),
    Check,
    Length { bytes: u64 },
}

// Whether no journal has so many blocks.
fn wrong_blocks(blocks: u32) -> bool
    ensures { result ≡ wrong_blocks blocks }
{
    if blocks % 2 != 0 {
        return true;
    }
    if blocks < 18 {
        return true;
    }
    128 < blocks
}

// Whether no file has so many journals.
fn wrong_journals(journals: u32) -> bool
    ensures { result ≡ wrong_journals journals }
{
    if journals == 0 {
        return true;
    }
    65535 < journals
}

// The bytes of a file of so many journals.
fn file_bytes(blocks: u32, journals: u32) -> u64
    requires { (wrong_blocks blocks ≡ false) × (wrong_journals journals ≡ false) }
    ensures { result ≡ file_bytes blocks journals }
{
    4096 * (1 + (journals as u64) * (blocks as u64))
}

// Reads sector 0 of a file of so many bytes. The first test that fails is answered.
pub fn form_of(sector: &[u8], bytes: u64) -> Result<Layout, FormError>
    requires { 512 ≤ length sector.now }
    ensures { result ≡ form_of sector.now bytes }
{
    if raw::read_u64(sector, 0) != MAGIC {
        return Err(FormError::Magic);
    }
    let version = raw::read_u32(sector, 8);
    if version != 1 {
        return Err(FormError::Version(version));
    }
    let size = raw::read_u32(sector, 12);
    if size != 4096 {
        return Err(FormError::SectorBytes(size));
    }
    let blocks = raw::read_u32(sector, 16);
    if wrong_blocks(blocks) {
        return Err(FormError::Blocks(blocks));
    }
    let journals = raw::read_u32(sector, 20);
    if wrong_journals(journals) {
        return Err(FormError::Journals(journals));
    }
    if !crc::is_sealed(&sector[..512]) {
        return Err(FormError::Check);
    }
    let whole = file_bytes(blocks, journals);
    if bytes != whole {
        return Err(FormError::Length { bytes: whole });
    }
    Ok(Layout { blocks, journals })
}

// Where the sector of a block begins in the file.
pub fn place_of(blocks: u32, journal: u32, block: u32) -> u64
    requires { (blocks ≤ 128) × (journal ≤ 65535) × (block ≤ 128) }
    ensures { PlaceIs blocks journal block result }
{
    4096 * (1 + ((journal as u64) * (blocks as u64) + block as u64))
}

// Puts the block at the front of a sector into its place in an area.
pub fn put_front(area: &mut [u8], at: usize, sector: &[u8])
    requires { (512 * at + 512 ≤ length area.old) × (512 ≤ length sector.now) }
    ensures { area.new ≡ write_at area.old at (front sector.now) }
{
    let _ = raw::write_bytes(area, 512 * at, &sector[..512]);
}

// Fills the place of a block that can't be read: neither a header nor a body has such bytes.
pub fn put_unread(area: &mut [u8], at: usize)
    requires { 512 * at + 512 ≤ length area.old }
    ensures { area.new ≡ write_at area.old at unread }
{
    let filler = [255u8; 512];
    let _ = raw::write_bytes(area, 512 * at, &filler);
}

// What a file for several journals says of one of them.
#[derive(Clone, Copy)]
pub enum State {
    Free,
    Unfinished,
    InUse,
}

// The number of a mark, or 0 where the bytes are none.
fn mark_of(mark: &[u8]) -> u32
    requires { length mark.now ≡ 512 }
    ensures { result ≡ mark_of mark.now }
{
    if !raw::all_zero(&mark[4..508]) {
        return 0;
    }
    if !crc::is_sealed(mark) {
        return 0;
    }
    raw::read_u32(mark, 0)
}

// Whether all of a journal is zeros, its mark too.
fn is_blank(area: &[u8], mark: &[u8]) -> bool
    ensures { result ≡ is_blank area.now mark.now }
{
    if !raw::all_zero(mark) {
        return false;
    }
    raw::all_zero(area)
}

// Whether a header stands in front of either half.
fn is_begun(area: &[u8]) -> bool
    requires { 1024 ≤ length area.now }
    ensures { result ≡ is_begun area.now }
{
    if journal::is_head(&area[..512]) {
        return true;
    }
    let from = 512 * (area.len() / 1024);
    let to = from + 512;
    journal::is_head(&area[from..to])
}

// What the file says of a journal with this area and these 512 bytes after its last block.
pub fn state_of(area: &[u8], mark: &[u8]) -> State
    requires { (1024 ≤ length area.now) × (length mark.now ≡ 512) }
    ensures { result ≡ state_of area.now mark.now }
{
    let number = mark_of(mark);
    if number == 2 {
        return State::InUse;
    }
    if number == 1 {
        return State::Unfinished;
    }
    if is_blank(area, mark) {
        return State::Free;
    }
    if is_begun(area) {
        return State::InUse;
    }
    State::Unfinished
}
