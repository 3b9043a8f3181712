// A restart and an import on the parts of a consumer: its columns are lent, and filled only where nothing is refused; its numbers are
// answered. So a consumer by value and one that lies in another's memory are served by the same function.
ghost use Rattle.std.specs.Prelude.{◌≡◌, not, ℕ, ◌≤◌, length, take};
ghost use Rattle.types.specs.Limits.{LEASES};
ghost use Rattle.types.specs.Keyed.{entries};
ghost use Rattle.types.specs.Lists.{entry_of, entries_of};
ghost use Rattle.tables.specs.Slots.{Permutes};
ghost use Rattle.cursor.specs.View as cursors;
ghost use Rattle.cursor.specs.View.{ack_cursor};
ghost use Rattle.cursor.specs.Snapshot.{decode_cursor};
ghost use Rattle.attempt.specs.Snapshot.{decode_attempts};
ghost use Rattle.types.specs.Refusal.{done};
ghost use Rattle.types.specs.Refused.{as_is};
ghost use Rattle.types.specs.Table.{checked};
ghost use Rattle.journal.specs.Answers.{stop_of};
ghost use Rattle.consumer.specs.State as state;
ghost use Rattle.starts.specs.Restart.{is_dropped, unsettled_counts, from_snapshots, read_group, limit, unfit_at, end_table};
ghost use Rattle.starts.specs.Starting.{next_group_of, Lies};
ghost use Rattle.starts.specs.Parts.{fresh_numbers, columns, Long, ReadIs, RestartedIn, ImportedIn};

use crate::{FIRST_GROUP, check_start, origin};
use consumer::{Configuration, NextGroup, halves};
use cursor::columns::{check_snapshot, read_column};
use journal::Stop;
use types::limits::{CARRIED, LEASES, PAIRS, RANGES};
use types::refusals::Refusal;
use types::{Generation, Pair};

// The numbers of the consumer that goes on after a restart or an import.
#[derive(Clone, Copy)]
pub struct RestartedAt {
    pub committed: u64,
    pub runs: usize,
    pub carried_len: usize,
    pub ceiling: u64,
    pub number: u64,
    pub block: usize,
}

// What `restart` does on the columns of a consumer: 1 to 3, 33, 34, 4 to 19. No column changes where it is refused.
pub fn restart_in_place(
    configuration: Configuration,
    area: &[u8],
    starts: &mut [u64; RANGES],
    ends: &mut [u64; RANGES],
    carried_offsets: &mut [u64; CARRIED],
    carried_counts: &mut [u32; CARRIED],
) -> Result<RestartedAt, Refusal>
    requires { Long (columns starts.old ends.old carried_offsets.old carried_counts.old) }
    ensures { RestartedIn configuration area.now result (columns starts.old ends.old carried_offsets.old carried_counts.old) (columns starts.new ends.new carried_offsets.new carried_counts.new) }
{
    check_start(configuration, area.len())?;
    let from = origin(area);
    let hi = from.block + halves::half_blocks(area.len());
    let stop = journal::walk(area, hi, from.number, from.block)?;
    check_end(area, hi, stop)?;
    let Some(at) = stop.last else {
        return Ok(fresh_numbers());
    };
    let next = NextGroup {
        number: stop.number,
        block: stop.block,
    };
    read_group(
        area,
        at,
        next,
        starts,
        ends,
        carried_offsets,
        carried_counts,
    )
}

// What `import` does on the columns of a consumer: 1 to 3, 33, 34, 4, then 6 to 19 of the bytes. No column changes where it is refused.
pub fn import_in_place<'a>(
    configuration: Configuration,
    area_len: usize,
    first: Generation,
    cursor: &'a [u8],
    attempts: &'a [u8],
    starts: &mut [u64; RANGES],
    ends: &mut [u64; RANGES],
    carried_offsets: &mut [u64; CARRIED],
    carried_counts: &mut [u32; CARRIED],
) -> Result<RestartedAt, Refusal>
    requires { Long (columns starts.old ends.old carried_offsets.old carried_counts.old) }
    ensures { ImportedIn configuration area_len first.0 cursor.now attempts.now result (columns starts.old ends.old carried_offsets.old carried_counts.old) (columns starts.new ends.new carried_offsets.new carried_counts.new) }
{
    check_start(configuration, area_len)?;
    let next = FIRST_GROUP;
    read_snapshots(
        cursor,
        attempts,
        first.0,
        next,
        starts,
        ends,
        carried_offsets,
        carried_counts,
    )
}

// Every slot free, whatever stood there: no lease is out after a restart.
pub fn free_slots(slots: &mut [u32; LEASES])
    ensures { Permutes LEASES slots.new }
{
    *slots = tables::all_slots();
}

// The numbers of a fresh consumer.
fn fresh_numbers() -> RestartedAt
    ensures { result ≡ fresh_numbers }
{
    RestartedAt {
        committed: 0,
        runs: 0,
        carried_len: 0,
        ceiling: 0,
        number: 1,
        block: 0,
    }
}

// Whether a walk ended at a header that is sound in all but its fit: its bodies would pass the end of its half, `hi`.
fn unfit_at(area: &[u8], hi: usize, number: u64, block: usize) -> bool
    requires { hi ≡ limit area.now }
    ensures { result ≡ unfit_at area.now number block }
{
    if hi <= block {
        return false;
    }
    let from = 512 * block;
    let to = from + 512;
    journal::is_sound_but_fit(&area[from..to], number)
}

// Refusal 5 of what stands where a walk over the half in use ended: a header that doesn't fit there, or a block of kind 1 with a right
// check behind that place.
fn check_end(area: &[u8], hi: usize, stop: Stop) -> Result<(), Refusal>
    requires { hi ≡ limit area.now }
    ensures { as_is result ≡ checked (end_table area.now (stop_of stop)) (done (tt {0})) }
{
    let block = stop.block;
    if unfit_at(area, hi, stop.number, block) {
        return Err(Refusal::Damaged { block });
    }
    if journal::header_behind(area, hi, block) {
        return Err(Refusal::Damaged { block });
    }
    Ok(())
}

// The group whose header stands at a block.
fn read_group(
    area: &[u8],
    at: usize,
    next: NextGroup,
    starts: &mut [u64; RANGES],
    ends: &mut [u64; RANGES],
    carried_offsets: &mut [u64; CARRIED],
    carried_counts: &mut [u32; CARRIED],
) -> Result<RestartedAt, Refusal>
    requires { Lies area.now at × Long (columns starts.old ends.old carried_offsets.old carried_counts.old) }
    ensures { ReadIs (λ (k : state.Configuration). read_group k area.now at (next_group_of next)) (length area.now) result (columns starts.old ends.old carried_offsets.old carried_counts.old) (columns starts.new ends.new carried_offsets.new carried_counts.new) }
{
    let from = 512 * at;
    let to = from + 512;
    let header = journal::read_header(&area[from..to]);
    let mut payload = [0u8; 3606];
    let _ = journal::read_payload(area, at, &mut payload);
    let middle = header.cursor_len as usize;
    let end = middle + header.attempt_len as usize;
    let bytes: &[u8] = &payload;
    read_snapshots(
        &bytes[..middle],
        &bytes[middle..end],
        header.ceiling,
        next,
        starts,
        ends,
        carried_offsets,
        carried_counts,
    )
}

// Two snapshots, the cursor's read first: 6 to 19. Both are tested before a column is filled.
fn read_snapshots<'a>(
    cursor_bytes: &'a [u8],
    attempt_bytes: &'a [u8],
    ceiling: u64,
    next: NextGroup,
    starts: &mut [u64; RANGES],
    ends: &mut [u64; RANGES],
    carried_offsets: &mut [u64; CARRIED],
    carried_counts: &mut [u32; CARRIED],
) -> Result<RestartedAt, Refusal>
    requires { Long (columns starts.old ends.old carried_offsets.old carried_counts.old) }
    ensures { (size : ℕ) → ReadIs (λ (k : state.Configuration). from_snapshots k size (decode_cursor cursor_bytes.now) (decode_attempts attempt_bytes.now) ceiling (next_group_of next)) size result (columns starts.old ends.old carried_offsets.old carried_counts.old) (columns starts.new ends.new carried_offsets.new carried_counts.new) }
{
    let figures = check_snapshot(cursor_bytes)?;
    let decoded = attempt::decode_pairs(attempt_bytes)?;
    let committed = figures.committed;
    let runs = figures.runs;
    read_column(cursor_bytes, 9, runs, starts);
    read_column(cursor_bytes, 17, runs, ends);
    let list = decoded.pairs;
    let carried_len = carry(
        committed,
        starts,
        ends,
        runs,
        list,
        decoded.count,
        carried_offsets,
        carried_counts,
    );
    Ok(RestartedAt {
        committed,
        runs,
        carried_len,
        ceiling,
        number: next.number,
        block: next.block,
    })
}

// Whether a count is carried: it isn't zero, and its offset isn't settled.
fn is_carried<'a>(
    committed: u64,
    starts: &'a [u64; RANGES],
    ends: &'a [u64; RANGES],
    runs: usize,
    pair: Pair,
) -> bool
    requires { cursors.Whole (ack_cursor committed starts.now ends.now runs) }
    ensures { result ≡ not (is_dropped (cursors.view (ack_cursor committed starts.now ends.now runs)) (entry_of pair)) }
{
    if pair.attempt == 0 {
        return false;
    }
    !cursor::in_place::is_acked_in_place(committed, starts, ends, runs, pair.offset)
}

// Fills two columns with the nonzero counts of offsets that are not settled, of the first `count` pairs, and answers how many they are.
fn carry<'a>(
    committed: u64,
    starts: &'a [u64; RANGES],
    ends: &'a [u64; RANGES],
    runs: usize,
    pairs: [Pair; PAIRS],
    count: usize,
    offsets: &mut [u64; CARRIED],
    counts: &mut [u32; CARRIED],
) -> usize
    requires { cursors.Whole (ack_cursor committed starts.now ends.now runs) × (count ≤ 128) × (length offsets.old ≡ 128) × (length counts.old ≡ 128) }
    ensures { (result ≤ 128) × (entries (take result offsets.new) (take result counts.new) ≡ unsettled_counts (cursors.view (ack_cursor committed starts.now ends.now runs)) (entries_of (take count pairs))) }
{
    let mut len: usize = 0;
    for i in 0..count {
        let pair = pairs[i];
        if is_carried(committed, starts, ends, runs, pair) {
            offsets[len] = pair.offset;
            counts[len] = pair.attempt;
            len += 1;
        }
    }
    len
}
