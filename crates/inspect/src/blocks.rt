// What is said of a block of a journal: what it is, and where it isn't what is expected at its place, why.
ghost use Rattle.std.specs.Prelude.{◌≡◌, ◌+◌, ◌*◌, ◌≤◌, length};
ghost use Rattle.inspect.specs.Places.{place_at};

use crate::faults::{Fault, Seen};
use crate::places;
use crate::places::Place;
use crate::said::{Said, byte, says};
use consumer::halves::half_blocks;
use text::output::Output;

// What a block is, and how that is what is expected at its place.
#[derive(Clone, Copy, PartialEq, Eq)]
pub struct Row {
    pub what: Said,
    pub rest: Said,
}

// A kind that isn't the one expected.
fn kind_said(kind: u64) -> Said {
    match kind {
        1 => says(b"unsound: of the kind of a header", 0, 0),
        2 => says(b"unsound: of the kind of a body", 0, 0),
        _ => says(
            b"unsound: of kind #, which neither a header nor a body has",
            kind,
            0,
        ),
    }
}

// A length or a count that a header can't have.
fn size_said(block: &[u8], fault: Fault) -> Said {
    let header = journal::read_header(block);
    match fault {
        Fault::CursorLength => says(
            b"unsound: it says a cursor snapshot of # bytes, not 13 to 2061",
            u64::from(header.cursor_len),
            0,
        ),
        Fault::AttemptLength => says(
            b"unsound: it says an attempt snapshot of # bytes, not 9 to 1545",
            u64::from(header.attempt_len),
            0,
        ),
        Fault::Count => says(
            b"unsound: it counts # bodies, which its lengths don't make",
            byte(block, 1),
            0,
        ),
        _ => says(b"unsound: its bodies pass the end of its half", 0, 0),
    }
}

// The test that a block fails, with what it has there.
fn fault_said(block: &[u8], fault: Fault) -> Said {
    match fault {
        Fault::Length => says(b"unsound: it has no 512 bytes", 0, 0),
        Fault::Kind => kind_said(byte(block, 0)),
        Fault::Check => says(b"unsound: wrong check", 0, 0),
        Fault::Number => {
            let header = journal::read_header(block);
            says(b"unsound: it names group #", u64::from(header.number), 0)
        }
        Fault::Zeros => says(b"unsound: bytes that are to be zero are not", 0, 0),
        Fault::Index => says(b"unsound: it says that it is body #", byte(block, 1), 0),
        Fault::Used => says(
            b"unsound: it says # bytes used",
            u64::from(raw::read_u16(block, 2)),
            0,
        ),
        Fault::CursorLength | Fault::AttemptLength | Fault::Count | Fault::Fit => {
            size_said(block, fault)
        }
    }
}

// A sound header.
fn header_said(block: &[u8]) -> Said {
    let header = journal::read_header(block);
    Said {
        text: b"header of group #, ceiling #, cursor snapshot # bytes, attempt snapshot # bytes",
        numbers: [
            u64::from(header.number),
            header.ceiling,
            u64::from(header.cursor_len),
            u64::from(header.attempt_len),
        ],
    }
}

// A sound body.
fn body_said(block: &[u8]) -> Said {
    let header = journal::read_header(block);
    let used = raw::read_u16(block, 2);
    Said {
        text: b"body # of group #, # bytes used",
        numbers: [byte(block, 1), u64::from(header.number), u64::from(used), 0],
    }
}

// What a block is.
fn what_said(block: &[u8], seen: Result<Seen, Fault>) -> Said {
    match seen {
        Ok(Seen::Empty) => says(b"empty", 0, 0),
        Ok(Seen::Header) => header_said(block),
        Ok(Seen::Body) => body_said(block),
        Err(fault) => fault_said(block, fault),
    }
}

// The end of a line of which nothing more is said.
fn nothing_more() -> Said {
    says(b"\n", 0, 0)
}

// How many bodies a header has, in this text.
fn bodies_said(text: &'static [u8], block: &[u8]) -> Said {
    let header = journal::read_header(block);
    let bodies = journal::bodies_for(header.cursor_len, header.attempt_len);
    says(text, u64::from(bodies), 0)
}

// Behind the groups, where the header of group `number` was expected last. A restart only looks whether a header stands there.
fn behind_rest(number: u64, block: &[u8], seen: Result<Seen, Fault>) -> Said {
    match seen {
        Ok(Seen::Empty) => nothing_more(),
        Ok(Seen::Header) => bodies_said(b", bodies #; behind the groups\n", block),
        Ok(Seen::Body) if u64::from(raw::read_u32(block, 4)) == number => says(
            b"; behind the groups, of the group that would come next\n",
            0,
            0,
        ),
        _ => says(b"; behind the groups\n", 0, 0),
    }
}

// How a block is what is expected at its place.
fn rest_said(place: Place, block: &[u8], seen: Result<Seen, Fault>) -> Said {
    match (place, seen) {
        (Place::Header { .. } | Place::Free, Ok(Seen::Header)) => {
            bodies_said(b", bodies #\n", block)
        }
        (Place::Body { .. }, Ok(Seen::Body)) | (Place::Free, _) => nothing_more(),
        (Place::Header { number }, _) => says(
            b"; the groups end here, where the header of group # would stand\n",
            number,
            0,
        ),
        (Place::Body { number, index, .. }, _) => {
            says(b"; no sound body # of group #\n", index as u64, number)
        }
        (Place::Behind { number }, _) => behind_rest(number, block, seen),
    }
}

// What a block that was judged is shown as: no block of zeros is called unsound.
fn seen_in(block: &[u8], judged: Result<Seen, Fault>) -> Result<Seen, Fault> {
    if raw::all_zero(block) {
        return Ok(Seen::Empty);
    }
    judged
}

// Of block `m` of the half of an area that begins at block `half`, where `place` is what is expected there.
pub fn row_at(area: &[u8], half: usize, m: usize, place: Place) -> Row
    requires { (512 * (half + m) + 512 ≤ length area.now) × (place ≡ place_at area.now half m) }
{
    let i = half + m;
    let from = 512 * i;
    let to = from + 512;
    let block = &area[from..to];
    let end = half + half_blocks(area.len());
    let seen = seen_in(block, places::judge(place, block, end, i));
    Row {
        what: what_said(block, seen),
        rest: rest_said(place, block, seen),
    }
}

// The end of a line, behind the blocks that it is of.
pub fn put_row(out: &mut Output, row: Row) {
    row.what.put(out);
    row.rest.put(out);
}
