// Journals out of files in sectors, and such as are asked for by their number: of a file with blocks side by side, read at once; or in
// sectors, read one by one. Where the disk can't read a part (EIO), the rest is read, and its blocks are unsound: 1 stands for each of them
// in a list that goes with the area.
ghost use Rattle.std.specs.Prelude.{◌≡◌, ◌+◌, ◌*◌, ◌≤◌, ◌<◌, length};

use crate::facts::Layout;
use crate::{facts, forms, journals};
use sectors::{FormError, State};
use std::alloc::Global;
use std::fs::File;
use std::io;
use std::io::{Error, Read, Seek, SeekFrom, Stderr};
use std::os::unix::fs::FileExt;
use text::failures::fail;
use text::output::Output;

// The error of a disk that can't read a part.
const EIO: i32 = 5;

// How many bytes were read, and the error of the read that failed, where one did.
#[derive(Clone, Copy)]
pub struct Full {
    pub len: usize,
    pub failed: Option<Error>,
}

// Reads until a buffer is full, the input ends or a read fails.
pub fn read_full(file: &mut File, buf: &mut [u8]) -> Full
    ensures { result.len ≤ length buf.old }
{
    let mut len: usize = 0;
    while len < buf.len() {
        match file.read(&mut buf[len..]) {
            Ok(0) => break,
            Ok(n) => len += n,
            Err(error) => {
                return Full {
                    len,
                    failed: Some(error),
                };
            }
        }
    }
    Full { len, failed: None }
}

// Reads on, and answers whether there is more. There is more behind a full buffer only: else a read had failed before.
pub fn read_on(file: &mut File, full: bool, failed: Option<Error>) -> io::Result<bool> {
    let mut one = [0u8; 1];
    match file.read(&mut one)? {
        0 => Ok(false),
        _ if full => Ok(true),
        _ => Err(failed.unwrap_or(Error::from_raw_os_error(0))),
    }
}

// Reads once, from a place of a file on, and answers how many bytes came: none where the read fails.
fn read_at(file: &File, buf: &mut [u8], place: u64) -> usize
    ensures { length buf.new ≡ length buf.old }
{
    file.read_at(buf, place).unwrap_or(0)
}

// Whether a file is longer than any with blocks side by side, and begins as one in sectors does.
pub fn is_in_sectors(file: &File) -> bool {
    let mut sector = [0u8; 4096];
    let got = read_at(file, &mut sector, 0);
    if got != 4096 {
        return false;
    }
    if let Err(FormError::Magic) = sectors::form_of(&sector, 0) {
        return false;
    }
    let mut one = [0u8; 1];
    match file.read_at(&mut one, 65536) {
        Ok(0) => false,
        _ => true,
    }
}

// Reads one block of a file with blocks side by side.
fn read_block(file: &File, at: usize, area: &mut [u8], unread: &mut [u8; 128])
    requires { (at < 128) × (512 * at + 512 ≤ length area.old) }
{
    let mut block = [0u8; 512];
    let got = read_at(file, &mut block, (512 * at) as u64);
    if got == 512 {
        sectors::put_front(area, at, &block);
    } else {
        sectors::put_unread(area, at);
        unread[at] = 1;
    }
}

// Reads `count` of them, each by itself.
fn read_blocks(file: &File, count: usize, area: &mut [u8], unread: &mut [u8; 128])
    requires { (count ≤ 128) × (512 * count ≤ length area.old) }
{
    for at in 0..count {
        read_block(file, at, area, unread);
    }
}

// Reads one block of a journal in sectors.
fn read_sector(
    file: &File,
    blocks: u32,
    journal: u32,
    at: u32,
    area: &mut [u8],
    unread: &mut [u8; 128],
)
    requires { (blocks ≤ 128) × (journal ≤ 65535) × (at < 128) × (512 * at + 512 ≤ length area.old) }
{
    let mut sector = [0u8; 4096];
    let place = sectors::place_of(blocks, journal, at);
    let got = read_at(file, &mut sector, place);
    if got == 4096 {
        sectors::put_front(area, at as usize, &sector);
    } else {
        sectors::put_unread(area, at as usize);
        unread[at as usize] = 1;
    }
}

// Reads the area of a journal in sectors.
fn read_area(file: &File, blocks: u32, journal: u32, area: &mut [u8], unread: &mut [u8; 128])
    requires { (blocks ≤ 128) × (journal ≤ 65535) × (512 * blocks ≤ length area.old) }
{
    for at in 0..blocks {
        read_sector(file, blocks, journal, at, area, unread);
    }
}

// Prints the one journal of a file with blocks side by side.
fn show_area(out: &mut Output, asked: Option<u64>, area: &[u8], unread: &[u8; 128]) {
    match asked {
        None | Some(0) => journals::journal(out, area, Layout::SideBySide, unread),
        Some(number) => forms::no_such(out, number, 1),
    }
}

// Prints a file with blocks side by side that can be read at once; else tells whether there is more behind what was read.
fn at_once(out: &mut Output, asked: Option<u64>, file: &mut File) -> io::Result<bool> {
    let mut area = [0u8; 65536];
    let read = read_full(file, &mut area);
    let n = read.len;
    let more = read_on(file, n == 65536, read.failed)?;
    if !more {
        show_area(out, asked, &area[..n], &[0; 128]);
    }
    Ok(more)
}

// Whether the journals of a file in sectors have marks.
fn is_marked(file: &File) -> bool {
    let mut sector = [0u8; 4096];
    let got = read_at(file, &mut sector, 0);
    got == 4096 && sector[24] == 1
}

// What a file says of a journal in sectors, by the mark after its last block. One that can't be read is none.
fn marked_state(file: &File, blocks: u32, journal: u32, area: &[u8]) -> State
    requires { (blocks ≤ 128) × (journal ≤ 65535) }
{
    let mut sector = [0u8; 4096];
    let place = sectors::place_of(blocks, journal, blocks.saturating_sub(1));
    let got = read_at(file, &mut sector, place);
    if area.len() < 1024 {
        return State::InUse;
    }
    if got != 4096 {
        return sectors::state_of(area, &[255; 512]);
    }
    sectors::state_of(area, &sector[512..1024])
}

// The same of the journal in an area that was read; in use where there are no marks.
fn state_of(file: &File, blocks: u32, journal: u32, area: &[u8]) -> State
    requires { (blocks ≤ 128) × (journal ≤ 65535) }
{
    if is_marked(file) {
        return marked_state(file, blocks, journal, area);
    }
    State::InUse
}

// Prints a journal of a file in sectors; before it, of one that isn't in use, what it is.
fn show_one(out: &mut Output, file: &File, bytes: u64, form: sectors::Layout, number: u32)
    requires { (form.blocks ≤ 128) × (number ≤ 65535) }
{
    let blocks = form.blocks;
    let mut buffer = [0u8; 65536];
    let mut unread = [0u8; 128];
    read_area(file, blocks, number, &mut buffer, &mut unread);
    let area = &buffer[..512 * (blocks as usize)];
    let state = state_of(file, blocks, number, area);
    forms::marked(out, state, u64::from(number));
    let layout = Layout::InSectors {
        bytes,
        journals: u64::from(form.journals),
        number: u64::from(number),
    };
    journals::journal(out, area, layout, &unread);
}

// A line of a list, of a journal that is read for it.
fn line(out: &mut Output, file: &File, blocks: u32, number: u32)
    requires { (blocks ≤ 128) × (number ≤ 65535) }
{
    let mut buffer = [0u8; 65536];
    let mut unread = [0u8; 128];
    read_area(file, blocks, number, &mut buffer, &mut unread);
    let area = &buffer[..512 * (blocks as usize)];
    match state_of(file, blocks, number, area) {
        State::InUse => journals::summary(out, area, u64::from(number), &unread),
        state => forms::marked(out, state, u64::from(number)),
    }
}

// Prints a line for each journal of a file in sectors, and what the file is.
fn show_list(out: &mut Output, file: &File, bytes: u64, form: sectors::Layout)
    requires { (form.blocks ≤ 128) × (form.journals ≤ 65535) }
{
    for number in 0..form.journals {
        line(out, file, form.blocks, number);
    }
    facts::shape(out, bytes, u64::from(form.journals), u64::from(form.blocks));
}

// Prints what is asked for of a file in sectors.
fn show_asked(out: &mut Output, asked: Option<u64>, file: &File, bytes: u64, form: sectors::Layout)
    requires { (form.blocks ≤ 128) × (form.journals ≤ 65535) }
{
    let journals = u64::from(form.journals);
    match asked {
        Some(number) if number < journals => show_one(out, file, bytes, form, number as u32),
        Some(number) => forms::no_such(out, number, journals),
        None if journals == 1 => show_one(out, file, bytes, form, 0),
        None => show_list(out, file, bytes, form),
    }
}

// Prints a file that is longer than any with blocks side by side, or says what is wrong with its sector 0.
fn in_sectors(out: &mut Output, asked: Option<u64>, file: &File, bytes: u64) {
    let mut sector = [0u8; 4096];
    let got = read_at(file, &mut sector, 0);
    if got != 4096 {
        forms::unreadable(out);
        return;
    }
    match sectors::form_of(&sector, bytes) {
        Ok(form) => show_asked(out, asked, file, bytes, form),
        Err(error) => forms::wrong(out, error, bytes),
    }
}

// Prints a file of `len` bytes part by part.
fn by_parts(out: &mut Output, asked: Option<u64>, file: &File, len: u64) {
    if 65536 < len {
        in_sectors(out, asked, file, len);
        return;
    }
    let mut area = [0u8; 65536];
    let mut unread = [0u8; 128];
    let n = len as usize;
    read_blocks(file, n / 512, &mut area, &mut unread);
    show_area(out, asked, &area[..n], &unread);
}

// Prints a file of journals: at once where that can be; part by part where the disk can't read a part, and a file in sectors.
pub fn show_journal(
    out: &mut Output,
    asked: Option<u64>,
    path: &str,
    file: &mut File,
    alloc: Global,
    stderr: Stderr,
) -> io::Result<()> {
    match at_once(out, asked, file) {
        Ok(false) => return Ok(()),
        Err(error) if error.raw_os_error() != Some(EIO) => {
            return fail(stderr, alloc, path, error);
        }
        _ => {}
    }
    match file.seek(SeekFrom::End(0)) {
        Ok(len) => by_parts(out, asked, file, len),
        Err(error) => return fail(stderr, alloc, path, error),
    }
    Ok(())
}
