// What is expected at each block of a half: at its first block the header that it is opened with, behind a sound header its bodies,
// behind these the header of the next group. Behind a block that is no sound header where one is expected, nothing is: the groups
// end there. In a half that isn't in use and isn't opened by a header, nothing is expected anywhere.
ghost use Rattle.std.specs.Prelude.{◌≡◌, ◌+◌, ◌*◌, ◌≤◌, length};
ghost use Rattle.journal.specs.Blocks.{used_in};
ghost use Rattle.inspect.specs.Places.{opened_by, first as firstPlace, judged, behind_body, behind_header, place_after};

use crate::faults::{Fault, Seen, body_verdict, by_itself, header_verdict};
use consumer::halves::half_blocks;

// The header of group `number`; body `index`, from 1, of the `bodies` of a group whose snapshots have `total` bytes; nothing, where
// the groups ended at the header of group `number`; or nothing, in a half without groups.
#[derive(Clone, Copy)]
pub enum Place {
    Header {
        number: u64,
    },
    Body {
        number: u64,
        index: usize,
        bodies: usize,
        total: usize,
    },
    Behind {
        number: u64,
    },
    Free,
}

// The place of a block that begins a half which isn't in use, by what it opens that half with; no group of it may pass block `hi`.
fn opened_by(block: &[u8], hi: usize, at: usize) -> Place
    ensures { result ≡ opened_by hi at block.now }
{
    if journal::is_sound_but_number(block, hi, at) {
        let number = raw::read_u32(block, 4) as u64;
        return Place::Header { number };
    }
    Place::Free
}

// The place of block `at`, where a half begins.
pub fn first(area: &[u8], at: usize) -> Place
    requires { 512 * at + 512 ≤ length area.now }
    ensures { result ≡ firstPlace area.now at }
{
    let walked = starts::origin(area);
    if at == walked.block {
        return Place::Header {
            number: walked.number,
        };
    }
    let from = 512 * at;
    let to = from + 512;
    opened_by(&area[from..to], at + half_blocks(area.len()), at)
}

// Bytes that body `index` of `bodies` is to use, of `total`.
fn used_in(index: usize, bodies: usize, total: usize) -> usize
    ensures { result ≡ used_in index bodies total }
{
    if index < bodies {
        return 500;
    }
    if bodies == 0 {
        return total;
    }
    if total / 500 < bodies - 1 {
        return 0;
    }
    total - 500 * (bodies - 1)
}

// A block at `at`, where no group may pass block `hi`: judged as what is expected at its place, or seen by itself where nothing is.
pub fn judge(place: Place, block: &[u8], hi: usize, at: usize) -> Result<Seen, Fault>
    ensures { result ≡ judged place hi at block.now }
{
    match place {
        Place::Header { number } => {
            header_verdict(block, hi, number, at)?;
            Ok(Seen::Header)
        }
        Place::Body {
            number,
            index,
            bodies,
            total,
        } => {
            body_verdict(block, number, index, used_in(index, bodies, total))?;
            Ok(Seen::Body)
        }
        Place::Behind { .. } | Place::Free => by_itself(block, hi, at),
    }
}

// The place behind body `index`, whatever that body is: its header is sound. No group has the number MAX.
fn behind_body(number: u64, index: usize, bodies: usize, total: usize) -> Place
    ensures { result ≡ behind_body number index bodies total }
{
    if index < bodies {
        return Place::Body {
            number,
            index: index + 1,
            bodies,
            total,
        };
    }
    if number == u64::MAX {
        return Place::Behind { number };
    }
    Place::Header { number: number + 1 }
}

// The place behind that of a sound header: its first body.
fn behind_header(number: u64, block: &[u8]) -> Place
    ensures { result ≡ behind_header number block.now }
{
    let header = journal::read_header(block);
    let bodies = journal::bodies_for(header.cursor_len, header.attempt_len);
    Place::Body {
        number,
        index: 1,
        bodies: bodies as usize,
        total: header.cursor_len as usize + header.attempt_len as usize,
    }
}

// The place behind this one, by the block at `at` that stands here.
pub fn after(place: Place, block: &[u8], hi: usize, at: usize) -> Place
    ensures { result ≡ place_after place hi at block.now }
{
    match place {
        Place::Header { number } => {
            if journal::is_sound_header(block, hi, number, at) {
                return behind_header(number, block);
            }
            Place::Behind { number }
        }
        Place::Body {
            number,
            index,
            bodies,
            total,
        } => behind_body(number, index, bodies, total),
        Place::Behind { .. } | Place::Free => place,
    }
}
