// What an operator asks of a journal: how long it is, which half is in use and how much of it is left, which groups it has, and its
// ceiling.
ghost use Rattle.std.specs.Prelude.{◌≡◌};
ghost use Rattle.journal.specs.Answers.{walked_of};
ghost use Rattle.inspect.specs.Missed.{in_front};

use consumer::halves::half_blocks;
use journal::Stop;
use text::output::Output;
use types::refusals::Refusal;

// How a journal lies in its file: as its blocks, side by side; or, as one of several journals, with a block in each sector.
#[derive(Clone, Copy)]
pub enum Layout {
    SideBySide,
    InSectors {
        bytes: u64,
        journals: u64,
        number: u64,
    },
}

// How long the file of an area of so many bytes is.
fn bytes_of(layout: Layout, len: usize) -> u64 {
    match layout {
        Layout::SideBySide => len as u64,
        Layout::InSectors { bytes, .. } => bytes,
    }
}

// How long the file is, and the bytes that are no whole block, where there are any.
fn file(out: &mut Output, bytes: u64, len: usize) {
    let blocks = (len / 512) as u64;
    let half = half_blocks(len) as u64;
    let rest = (len % 512) as u64;
    if rest == 0 {
        out.say(
            b"\nfile: # bytes, # blocks of 512 bytes in two halves of #\n",
            &[bytes, blocks, half],
        );
    } else {
        out.say(
            b"\nfile: # bytes, # blocks of 512 bytes in two halves of #, and # bytes behind the last whole block\n",
            &[bytes, blocks, half, rest],
        );
    }
}

// What a file of several journals is, with an empty line in front.
pub fn shape(out: &mut Output, bytes: u64, journals: u64, blocks: u64) {
    out.say(
        b"\nfile: # bytes, # journals of # blocks of 512 bytes\n",
        &[bytes, journals, blocks],
    );
    out.put(
        b"form: a block in each sector of 4096 bytes, for any disk that writes such a sector whole, or tears only the one being written\n",
    );
}

// What form a file in sectors has, and what that asks of the disk.
fn form(out: &mut Output, number: u64, journals: u64) {
    out.say(
        b"form: journal # of #, a block in each sector of 4096 bytes, for any disk that writes such a sector whole, or tears only the one \
        being written\n",
        &[number, journals],
    );
}

// Which half is in use: the one that begins at block `first`, and ends before block `hi`.
fn half(out: &mut Output, first: u64, hi: u64) {
    let blocks = [first, hi.saturating_sub(1)];
    if first == 0 {
        out.say(b"half in use: the first, blocks # to #", &blocks);
    } else {
        out.say(b"half in use: the second, blocks # to #", &blocks);
    }
}

// How much of it is left from the block on where the walk ended.
fn left(out: &mut Output, hi: u64, walked: Result<Stop, Refusal>) {
    match walked {
        Ok(stop) => out.say(
            b"; blocks left in it: #, and a checkpoint takes 2 to 9\n",
            &[hi.saturating_sub(stop.block as u64)],
        ),
        Err(_) => out.put(b"\n"),
    }
}

// The walk over the groups in front: those before the one whose body is unsound, where the walk met one. That one passes the body's block,
// and no group before it does.
pub fn good_walk(area: &[u8], walked: Result<Stop, Refusal>) -> Result<Stop, Refusal>
    ensures { walked_of result ≡ in_front area.now walked }
{
    match walked {
        Err(Refusal::Damaged { block }) => {
            let from = starts::origin(area);
            journal::walk(area, block, from.number, from.block)
        }
        _ => walked,
    }
}

// The groups of the half in use, which begins with group `first`.
fn all_groups(out: &mut Output, first: u64, stop: Stop) {
    let next = stop.number;
    let block = stop.block as u64;
    match stop.last {
        Some(header) => out.say(
            b"groups in it: #; the last is group #, with its header at block #; the next would stand at block #\n",
            &[
                next.saturating_sub(first),
                next.saturating_sub(1),
                header as u64,
                block,
            ],
        ),
        None => out.say(
            b"groups in it: none; group # would be the first, at block #\n",
            &[next, block],
        ),
    }
}

// Those of them in front of one whose body is unsound.
fn groups_in_front(out: &mut Output, first: u64, stop: Stop) {
    let next = stop.number;
    match stop.last {
        Some(header) => out.say(
            b"groups in it before the unsound body's: #; the last is group #, with its header at block #\n",
            &[
                next.saturating_sub(first),
                next.saturating_sub(1),
                header as u64,
            ],
        ),
        None => out.put(b"groups in it before the unsound body's: none\n"),
    }
}

// The ceiling that the header at a block has; 0 where there is no such block.
fn ceiling_at(area: &[u8], i: usize) -> u64 {
    if area.len() / 512 <= i {
        return 0;
    }
    let from = 512 * i;
    let to = from + 512;
    let header = journal::read_header(&area[from..to]);
    header.ceiling
}

// The ceiling of the last group in front.
fn ceiling(out: &mut Output, area: &[u8], stop: Stop) {
    match stop.last {
        Some(header) => out.say(
            b"ceiling: #, of that group; where a higher one was seen, a restart from it goes back over checkpoints\n\n",
            &[ceiling_at(area, header)],
        ),
        None => out.put(
            b"ceiling: 0, as no such group is found; where a higher one was seen, a restart goes back over checkpoints\n\n",
        ),
    }
}

// The half in use, how much of it is left, its groups and its ceiling.
fn contents(out: &mut Output, area: &[u8], walked: Result<Stop, Refusal>) {
    let from = starts::origin(area);
    let hi = starts::limit(area) as u64;
    half(out, from.block as u64, hi);
    left(out, hi, walked);
    let Ok(stop) = good_walk(area, walked) else {
        out.put(b"\n");
        return;
    };
    match walked {
        Ok(_) => all_groups(out, from.number, stop),
        Err(_) => groups_in_front(out, from.number, stop),
    }
    ceiling(out, area, stop);
}

// Of an area, the walk over it and how it lies in its file, with an empty line in front and behind.
pub fn facts(out: &mut Output, area: &[u8], walked: Result<Stop, Refusal>, layout: Layout) {
    file(out, bytes_of(layout, area.len()), area.len());
    if let Layout::InSectors {
        journals,
        number,
        ..
    } = layout
    {
        form(out, number, journals);
    }
    if let Err(Refusal::BadArea) = walked {
        out.put(b"blocks: listed in halves as if it were a journal\n\n");
        return;
    }
    contents(out, area, walked);
}
