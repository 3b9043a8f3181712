// A checkpoint on the parts of a writing record: each function takes its numbers by value and the bytes lent, and answers the numbers that
// change, so that a record by value and one that lies in another's memory are served by the same function.
ghost use Rattle.std.specs.Prelude.{◌≤◌, ◌+◌, ◌≡◌, suc, false, leb, length, take};
ghost use Rattle.types.specs.Limits.{sat64};
ghost use Rattle.cursor.specs.View.{ack_cursor};
ghost use Rattle.journal.specs.Area.{outside, write_at};
ghost use Rattle.journal.specs.Answers.{block_of};
ghost use Rattle.journal.specs.Blocks.{bodies_for};
ghost use Rattle.checkpoint.specs.Checkpoint.{zeroed_for};
ghost use Rattle.checkpoint.specs.Counts.{Narrow};
ghost use Rattle.checkpoint.specs.Parts.{counting, beginning, fitting, Beginnable, BegunIn, PermittedIn, parts, PlaceIs, NextIs, Steppable, SteppedIn, header_by};

use crate::Wrote;
use crate::counts::{Columns, Number};
use consumer::rights::CHECKPOINT;
use consumer::{halves, rights};
use cursor::AckCursor;
use journal::{Block, Header};
use types::limits::{MAX32, RANGES, WORKERS};
use types::refusals::Refusal;

// What a begin leaves in a record in which no block is written: how many block writes it takes, and how long the two snapshots in the
// payload are.
#[derive(Clone, Copy, Debug, PartialEq, Eq)]
pub struct BegunAt {
    pub writes: usize,
    pub cursor_len: usize,
    pub attempt_len: usize,
}

// The numbers of a record that steps change: the blocks written, the ceiling, the redeliveries since the last flush, and the next group's
// number and block.
#[derive(Clone, Copy, Debug, PartialEq, Eq)]
pub struct StepNumbers {
    pub written: usize,
    pub ceiling: u64,
    pub redeliveries: u32,
    pub number: u64,
    pub block: usize,
}

// What a step wrote, and the numbers after it.
#[derive(Clone, Copy, Debug, PartialEq, Eq)]
pub struct SteppedAt {
    pub wrote: Wrote,
    pub numbers: StepNumbers,
}

// The ceiling after a checkpoint: 4,096 generations more, as far as there are any.
fn new_ceiling(next: u64) -> u64
    ensures { result ≡ sat64 next 4096 }
{
    next.saturating_add(4096)
}

// Bodies for the two snapshots of a group.
pub fn bodies_of(cursor_len: usize, attempt_len: usize) -> usize
    requires { (cursor_len ≤ 4000) × (attempt_len ≤ 4000) }
    ensures { result ≡ bodies_for (cursor_len + attempt_len) }
{
    (cursor_len + attempt_len).div_ceil(500)
}

// Where a group goes: the block of its header, and how many blocks are zeroed before it, from there on.
#[derive(Clone, Copy)]
pub struct Place {
    pub block: usize,
    pub zeros: usize,
}

// Where a group of so many bodies goes: behind the last one, or to the other half where it doesn't fit.
pub fn place_of(area_len: usize, block: usize, bodies: usize) -> Place
    requires { (block ≤ 128) × (bodies ≤ 8) }
    ensures { PlaceIs area_len block bodies result }
{
    if halves::half_end(area_len, block) < block + (bodies + 1) {
        return Place {
            block: halves::other_half(area_len, block),
            zeros: halves::half_blocks(area_len),
        };
    }
    Place { block, zeros: 0 }
}

// Whether a sync is due after the next block write: after the last block before the header, and after the header, which is the last one.
pub fn is_sync_due(
    written: usize,
    cursor_len: usize,
    attempt_len: usize,
    area_len: usize,
    block: usize,
) -> bool
    requires { (cursor_len + attempt_len ≤ 3606) × (block ≤ 128) × (written ≤ 136) }
    ensures { let n = bodies_for (cursor_len + attempt_len) in result ≡ leb (zeroed_for area_len block n + n) (suc written) }
{
    let bodies = bodies_of(cursor_len, attempt_len);
    let place = place_of(area_len, block, bodies);
    place.zeros + bodies <= written + 1
}

// What `begin` does on the parts of a consumer, and on the payload of the record, for a worker that may: 38 and 39 come first.
pub fn begin_in_place<'a>(
    committed: u64,
    runs: usize,
    counts: Columns<'a, u32>,
    number: u64,
    block: usize,
    area_len: usize,
    worker: u64,
    rights: &'a [u8; WORKERS],
    starts: &'a [u64; RANGES],
    ends: &'a [u64; RANGES],
    payload: &mut [u8; 3606],
) -> Result<BegunAt, Refusal>
    requires { Beginnable (beginning rights.now (ack_cursor committed starts.now ends.now runs) (counting (λ column. column) counts) number block area_len) payload.old }
    ensures { BegunIn result worker (beginning rights.now (ack_cursor committed starts.now ends.now runs) (counting (λ column. column) counts.entry) number block area_len) payload.old payload.new }
{
    rights::permission_of(rights, worker, CHECKPOINT)?;
    begin_permitted(
        committed, runs, counts, number, block, area_len, starts, ends, payload,
    )
}

// The same where the worker may: both snapshots are encoded there, unless the number of the group is above the largest u32; then nothing
// changes (31).
pub fn begin_permitted<'a, T: Number>(
    committed: u64,
    runs: usize,
    counts: Columns<'a, T>,
    number: u64,
    block: usize,
    area_len: usize,
    starts: &'a [u64],
    ends: &'a [u64],
    payload: &mut [u8; 3606],
) -> Result<BegunAt, Refusal>
    requires parts { Beginnable (fitting (ack_cursor committed starts.now ends.now runs) (counting T.numbers counts) number block area_len) payload.old }
    requires narrow { Narrow T.narrow counts }
    ensures { PermittedIn result (fitting (ack_cursor committed starts.now ends.now runs) (counting T.numbers counts.entry) number block area_len) payload.old payload.new }
{
    if (MAX32 as u64) < number {
        return Err(Refusal::JournalFull);
    }
    let cursor_len = AckCursor::snapshot_len(runs);
    let attempt_len = attempt::snapshot_len(counts.len + counts.carried_len);
    let _ = cursor::in_place::encode_in_place(committed, starts, ends, runs, payload, 0);
    counts.put(payload, cursor_len);
    let bodies = bodies_of(cursor_len, attempt_len);
    let place = place_of(area_len, block, bodies);
    Ok(BegunAt {
        writes: place.zeros + (bodies + 1),
        cursor_len,
        attempt_len,
    })
}

// The header of a group.
fn header_of(number: u64, ceiling: u64, cursor_len: usize, attempt_len: usize) -> Header
    requires { (number ≤ 4294967295) × (cursor_len ≤ 4000) × (attempt_len ≤ 4000) }
    ensures { result ≡ header_by number ceiling cursor_len attempt_len }
{
    Header {
        number: number as u32,
        ceiling,
        cursor_len: cursor_len as u16,
        attempt_len: attempt_len as u16,
    }
}

// A block write: where, what, and whether it is the checkpoint's last.
#[derive(Clone, Copy)]
struct NextWrite {
    at: usize,
    block: Block,
    last: bool,
}

// The next block write of a checkpoint: zeros over the half that the group goes to, if it is another one, then its bodies behind
// the header's place, then the header.
fn next_write(place: Place, bodies: usize, written: usize, header: Header) -> NextWrite
    requires { (place.block ≤ 128) × (place.zeros ≤ 128) × (bodies ≤ 8) × (written ≤ 136) }
    ensures { NextIs place bodies written header result }
{
    if written < place.zeros {
        return NextWrite {
            at: place.block + written,
            block: Block::Zeros,
            last: false,
        };
    }
    if place.zeros + bodies <= written {
        return NextWrite {
            at: place.block,
            block: Block::Header(header),
            last: true,
        };
    }
    let index = written - place.zeros + 1;
    NextWrite {
        at: place.block + index,
        block: Block::Body {
            number: header.number,
            index: index as u8,
        },
        last: false,
    }
}

// Writes a block at place `at` of an area that has it; the bodies' bytes are the first `total` of the payload.
fn put_block(area: &mut [u8], at: usize, block: Block, payload: &[u8], total: usize)
    requires { (total ≤ length payload.now) × (outside (length area.old) at ≡ false) }
    ensures { area.new ≡ write_at area.old at (block_of block (take total payload.now)) }
{
    let _ = journal::write_block(area, at, block, &payload[..total]);
}

// What `Writing::step` does to the parts of a record: the next block write, and no other. An area of another length is refused (4).
pub fn step_in_place(
    numbers: StepNumbers,
    cursor_len: usize,
    attempt_len: usize,
    area_len: usize,
    next_generation: u64,
    payload: &[u8; 3606],
    area: &mut [u8],
) -> Result<SteppedAt, Refusal>
    requires { Steppable (parts numbers.written cursor_len attempt_len area_len next_generation numbers.ceiling numbers.redeliveries numbers.number numbers.block payload.now) }
    ensures { SteppedIn (parts numbers.written cursor_len attempt_len area_len next_generation numbers.ceiling numbers.redeliveries numbers.number numbers.block payload.now) area.old result area.new }
{
    if area.len() != area_len {
        return Err(Refusal::BadArea);
    }
    let total = cursor_len + attempt_len;
    let bodies = bodies_of(cursor_len, attempt_len);
    let place = place_of(area_len, numbers.block, bodies);
    let raised = new_ceiling(next_generation);
    let header = header_of(numbers.number, raised, cursor_len, attempt_len);
    let next = next_write(place, bodies, numbers.written, header);
    put_block(area, next.at, next.block, payload, total);
    let wrote = Wrote {
        block: next.at,
        finished: next.last,
    };
    if next.last {
        return Ok(SteppedAt {
            wrote,
            numbers: StepNumbers {
                written: numbers.written,
                ceiling: raised,
                redeliveries: redeliveries::after_flush(numbers.redeliveries),
                number: numbers.number + 1,
                block: next.at + (bodies + 1),
            },
        });
    }
    Ok(SteppedAt {
        wrote,
        numbers: StepNumbers {
            written: numbers.written + 1,
            ceiling: numbers.ceiling,
            redeliveries: numbers.redeliveries,
            number: numbers.number,
            block: numbers.block,
        },
    })
}
