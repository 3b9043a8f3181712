// Headers behind the block where the walk ended: it should have reached them, and a restart is refused (SPEC.md, "Restart"). And the
// greatest group that any header or body names.
ghost use Rattle.std.specs.Prelude.{◌≡◌, ◌-◌, ◌≤◌, min};
ghost use Rattle.types.specs.Refused.{option_of};
ghost use Rattle.journal.specs.Area.{blocks};
ghost use Rattle.journal.specs.Blocks.{group_of};
ghost use Rattle.inspect.specs.Missed.{first_header, named, HeadersAre, named_by, highest_named};

use text::output::Output;

// Blocks that have kind 1 and a right check: how many they are, and the greatest group number that they name.
#[derive(Clone, Copy)]
pub struct Headers {
    pub count: usize,
    pub number: u64,
}

// The first block from `from` on, below `hi`, that has kind 1 and a right check.
fn first_header(area: &[u8], from: usize, hi: usize) -> Option<usize>
    ensures { option_of (λ i. i) result ≡ first_header area.now (min hi (blocks area.now) - from) from }
{
    let end = hi.min(area.len() / 512);
    for i in from..end {
        let start = 512 * i;
        let to = start + 512;
        if journal::is_head(&area[start..to]) {
            return Some(i);
        }
    }
    None
}

// The group that a block names.
fn group_of(block: &[u8]) -> u64
    ensures { result ≡ group_of block.now }
{
    raw::read_u32(block, 4) as u64
}

// All such blocks from `from` on, below `hi`.
pub fn headers_behind(area: &[u8], from: usize, hi: usize) -> Headers
    ensures { HeadersAre (named area.now (min hi (blocks area.now) - from) from) result }
{
    let end = hi.min(area.len() / 512);
    let mut count: usize = 0;
    let mut number: u64 = 0;
    for i in from..end {
        let start = 512 * i;
        let to = start + 512;
        let block = &area[start..to];
        if journal::is_head(block) {
            count += 1;
            number = number.max(group_of(block));
        }
    }
    Headers { count, number }
}

// The group that a block of kind 1 or 2 with a right check names, 0 for any other block.
fn named_by(block: &[u8]) -> u64
    ensures { result ≡ named_by block.now }
{
    if journal::is_head(block) {
        return group_of(block);
    }
    if block.len() != 512 {
        return 0;
    }
    if block[0] != 2 {
        return 0;
    }
    if !crc::is_sealed(block) {
        return 0;
    }
    group_of(block)
}

// The greatest group that such a block of an area names, 0 where there is none.
pub fn highest_named(area: &[u8]) -> u64
    ensures { result ≡ highest_named area.now }
{
    let end = area.len() / 512;
    let mut number: u64 = 0;
    for i in 0..end {
        let start = 512 * i;
        let to = start + 512;
        number = number.max(named_by(&area[start..to]));
    }
    number
}

// The group that block i names, 0 where there is no such block.
fn group_at(area: &[u8], i: usize) -> u64 {
    if area.len() / 512 <= i {
        return 0;
    }
    let from = 512 * i;
    let to = from + 512;
    group_of(&area[from..to])
}

// What is out of reach where group `next` is the last one of which a checkpoint was finished, and a block names group `highest`.
fn one_lost(out: &mut Output, next: u64, highest: u64) {
    if next < highest {
        out.say(
            b"out of reach: group #, and perhaps #; checkpoints a restart can't reach: at least 1\n",
            &[next, highest],
        );
    } else {
        out.say(
            b"out of reach: group #; checkpoints a restart can't reach: at least 1\n",
            &[next],
        );
    }
}

// The same of the groups from `next` to a later one, the last of which a checkpoint was finished.
fn several_lost(out: &mut Output, next: u64, last: u64, highest: u64)
    requires { next ≤ last }
{
    let count = (last - next).saturating_add(1);
    if last < highest {
        out.say(
            b"out of reach: groups # to #, and perhaps #; checkpoints a restart can't reach: at least #\n",
            &[next, last, highest, count],
        );
    } else {
        out.say(
            b"out of reach: groups # to #; checkpoints a restart can't reach: at least #\n",
            &[next, last, count],
        );
    }
}

// What is out of reach in an area on which a restart is refused, where the groups that it can read end before group `next`: those from
// there to the last one of which a checkpoint was finished. Such a one has a header, or is the one before a group that a block names: no
// block of a group is written before the header of the one before. Whether the latest group that is named was finished, a body alone
// doesn't say.
pub fn lost(out: &mut Output, area: &[u8], next: u64) {
    let headers = headers_behind(area, 0, area.len() / 512);
    let highest = highest_named(area);
    let last = headers.number.max(highest.saturating_sub(1));
    if last < next {
        out.say(
            b"out of reach: groups that can't be told, as no header names group # or one after it\n",
            &[next],
        );
    } else if last == next {
        one_lost(out, next, highest);
    } else {
        several_lost(out, next, last, highest);
    }
}

// Of a walk below block `hi` that ended at a block, where group `next` would come next. Nothing is said where no header stands behind.
pub fn missed(out: &mut Output, area: &[u8], hi: usize, next: u64, block: usize) {
    if hi <= block {
        return;
    }
    let Some(first) = first_header(area, block + 1, hi) else {
        return;
    };
    let headers = headers_behind(area, first, hi);
    out.say(
        b"why: no sound header at block #, where the groups end; but block #, behind it, has the kind of a header and a right check, and \
        names group #; such blocks: #\n",
        &[
            block as u64,
            first as u64,
            group_at(area, first),
            headers.count as u64,
        ],
    );
    lost(out, area, next);
}
