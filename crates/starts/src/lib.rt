// How a consumer starts: fresh, from what its journal has, or from the snapshots of another server.
#![tactic(auto)]

ghost use Rattle.std.specs.Prelude.{◌≡◌, ◌≤◌, [], ◌∷◌, ◌++◌, length};
ghost use Rattle.types.specs.Limits.{LEASES};
ghost use Rattle.types.specs.Refusal.{Result, BadArea};
ghost use Rattle.types.specs.Table.{◌⇒◌, first};
ghost use Rattle.tables.specs.Slots.{Permutes};
ghost use Rattle.hours.specs.Hours.{hours_rows};
ghost use Rattle.hours.specs.View as opening;
ghost use Rattle.consumer.specs.State.{State, bad_area, half_blocks};
ghost use Rattle.starts.specs.Restart.{start_table, start, origin, limit, restart};
ghost use Rattle.starts.specs.Import.{import};
ghost use Rattle.starts.specs.Starting.{configuration_of, start_fault, FreshIs, StartedIs, OpeningIs, next_group_of};
ghost use Rattle.starts.specs.Parts.{Columns, columns, carrying_on, going_on, ResumedIn};

use crate::in_place::RestartedAt;
use consumer::{Configuration, Consumer, NextGroup, halves};
use cursor::AckCursor;
use hours::Hours;
use lease::{LeaseConfig, LeaseTable};
use types::Generation;
use types::limits::{CARRIED, LEASES, RANGES};
use types::refusals::Refusal;

pub mod in_place;

// The first group of a journal without any: number 1, at block 0.
const FIRST_GROUP: NextGroup = NextGroup {
    number: 1,
    block: 0,
};

// What a start, a restart or an import answers: a consumer, or a refusal: 1 to 3, those of the hours (33 and 34), 4, 5, the cursor
// snapshot's (6 to 12), or the attempt snapshot's (13 to 19). Beside a refusal stands the fresh consumer of this configuration, which
// is not to be called.
#[derive(Clone, Copy)]
pub struct Started {
    pub answer: Result<(), Refusal>,
    pub consumer: Consumer,
}

// Whether no consumer is started on an area of this length.
fn bad_area(area_len: usize) -> bool
    ensures { result ≡ bad_area area_len }
{
    if journal::bad_length(area_len) {
        return true;
    }
    let blocks = area_len / 512;
    if blocks % 2 != 0 {
        return true;
    }
    blocks < 18
}

// Refusals 33, 34 and 4.
fn check_hours(hours: Hours, area_len: usize) -> Result<(), Refusal>
    ensures { start_fault result ≡ first (hours_rows (opening.view hours) ++ (bad_area area_len ⇒ BadArea ∷ [])) }
{
    hours.test()?;
    if bad_area(area_len) {
        return Err(Refusal::BadArea);
    }
    Ok(())
}

// Refusals 1 to 3, 33, 34 and 4.
fn check_start(configuration: Configuration, area_len: usize) -> Result<(), Refusal>
    ensures { start_fault result ≡ first (start_table (configuration_of configuration) area_len) }
{
    let config = configuration.settings.delivery;
    if delivery::lacks_opt_in(config.max_deliver, config.allow_unlimited) {
        return Err(Refusal::UnlimitedDeliverNotAllowed);
    }
    if 16 < config.backoff_len {
        return Err(Refusal::TooManySteps);
    }
    if config.attempts_flush_redeliveries == 0 {
        return Err(Refusal::ZeroThreshold);
    }
    let hours = configuration.settings.hours;
    check_hours(hours, area_len)
}

// Nothing settled, nothing handed out, and the first group at block 0.
fn fresh(configuration: Configuration, area_len: usize) -> Consumer
    ensures { FreshIs configuration area_len result }
{
    let settings = configuration.settings;
    let lease = configuration.lease;
    Consumer {
        cursor: AckCursor::new(),
        table: LeaseTable::starting_at(lease, Generation(0)),
        ceiling: Generation(0),
        next: FIRST_GROUP,
        area_len: area_len,
        settings: settings,
    }
}

// A table without leases whose generations begin at the ceiling.
fn resumed_table(
    config: LeaseConfig,
    ceiling: u64,
    carried_offsets: [u64; CARRIED],
    carried_counts: [u32; CARRIED],
    carried_len: usize,
) -> LeaseTable
    ensures { (result ≡ carrying_on config ceiling carried_offsets carried_counts carried_len result) × Permutes LEASES result.slots }
{
    LeaseTable {
        config: config,
        offsets: [0; LEASES],
        slots: tables::all_slots(),
        generations: [0; LEASES],
        attempt_starts: [0; LEASES],
        deadlines: [0; LEASES],
        deliveries: [0; LEASES],
        workers: [0; LEASES],
        len: 0,
        carried_offsets: carried_offsets,
        carried_counts: carried_counts,
        carried_len: carried_len,
        next_generation: Generation(ceiling),
        redeliveries_since_flush: 0,
    }
}

// The consumer that goes on with these numbers, ranges and counts.
fn resumed(
    configuration: Configuration,
    area_len: usize,
    numbers: RestartedAt,
    starts: [u64; RANGES],
    ends: [u64; RANGES],
    carried_offsets: [u64; CARRIED],
    carried_counts: [u32; CARRIED],
) -> Consumer
    ensures { (result ≡ going_on configuration area_len numbers (columns starts ends carried_offsets carried_counts) result) × Permutes LEASES result.table.slots }
{
    let settings = configuration.settings;
    let lease = configuration.lease;
    let table = resumed_table(
        lease,
        numbers.ceiling,
        carried_offsets,
        carried_counts,
        numbers.carried_len,
    );
    Consumer {
        cursor: AckCursor {
            committed: numbers.committed,
            starts: starts,
            ends: ends,
            runs: numbers.runs,
        },
        table: table,
        ceiling: Generation(numbers.ceiling),
        next: NextGroup {
            number: numbers.number,
            block: numbers.block,
        },
        area_len: area_len,
        settings: settings,
    }
}

// What is answered with these numbers, ranges and counts: the consumer that goes on with them, or a fresh one beside a refusal.
fn started_with(
    configuration: Configuration,
    area_len: usize,
    done: Result<RestartedAt, Refusal>,
    starts: [u64; RANGES],
    ends: [u64; RANGES],
    carried_offsets: [u64; CARRIED],
    carried_counts: [u32; CARRIED],
) -> Started
    ensures { (right : Result State) (before : Columns) → ResumedIn right configuration area_len done before (columns starts ends carried_offsets carried_counts) → StartedIs configuration area_len right result }
{
    let numbers = match done {
        Ok(numbers) => numbers,
        Err(refusal) => {
            return Started {
                answer: Err(refusal),
                consumer: fresh(configuration, area_len),
            };
        }
    };
    Started {
        answer: Ok(()),
        consumer: resumed(
            configuration,
            area_len,
            numbers,
            starts,
            ends,
            carried_offsets,
            carried_counts,
        ),
    }
}

// The number under which the first block of a half, `at`, opens it: where the block is a header sound in all but the expected number.
fn opened_by(area: &[u8], at: usize) -> Option<u64>
    requires { at ≤ half_blocks (length area.now) }
    ensures { OpeningIs area.now at result }
{
    let from = 512 * at;
    let to = from + 512;
    if area.len() < to {
        return None;
    }
    let block = &area[from..to];
    if !journal::is_sound_but_number(block, at + halves::half_blocks(area.len()), at) {
        return None;
    }
    let header = journal::read_header(block);
    Some(header.number as u64)
}

// Where the walk over an area begins, and the group number that is expected there: at the half that is opened under the greater
// number, the first one if they are equal or neither is.
pub fn origin(area: &[u8]) -> NextGroup
    ensures { next_group_of result ≡ origin area.now }
{
    let middle = halves::half_blocks(area.len());
    let first = opened_by(area, 0);
    let second = opened_by(area, middle);
    match (first, second) {
        (None, None) => FIRST_GROUP,
        (Some(number), None) => NextGroup { number, block: 0 },
        (None, Some(number)) => NextGroup {
            number,
            block: middle,
        },
        (Some(a), Some(b)) => {
            if a < b {
                NextGroup {
                    number: b,
                    block: middle,
                }
            } else {
                NextGroup {
                    number: a,
                    block: 0,
                }
            }
        }
    }
}

// The block that no group of the half that is read may pass.
pub fn limit(area: &[u8]) -> usize
    ensures { result ≡ limit area.now }
{
    origin(area).block + halves::half_blocks(area.len())
}

// A fresh consumer for an area of so many zeroed bytes: 1 to 3, 33, 34, 4.
pub fn start(configuration: Configuration, area_len: usize) -> Started
    ensures { StartedIs configuration area_len (start (configuration_of configuration) area_len) result }
{
    let answer = check_start(configuration, area_len);
    let consumer = fresh(configuration, area_len);
    Started { answer, consumer }
}

// A consumer that goes on from what its journal has: 1 to 3, 33, 34, 4 to 19. The area is read and nothing is written.
pub fn restart(configuration: Configuration, area: &[u8]) -> Started
    ensures { StartedIs configuration (length area.now) (restart (configuration_of configuration) area.now) result }
{
    let mut starts = [0u64; RANGES];
    let mut ends = [0u64; RANGES];
    let mut carried_offsets = [0u64; CARRIED];
    let mut carried_counts = [0u32; CARRIED];
    let done = in_place::restart_in_place(
        configuration,
        area,
        &mut starts,
        &mut ends,
        &mut carried_offsets,
        &mut carried_counts,
    );
    started_with(
        configuration,
        area.len(),
        done,
        starts,
        ends,
        carried_offsets,
        carried_counts,
    )
}

// A consumer that begins with two snapshots of another server and a first generation, for an area of so many zeroed bytes: 1 to 3, 33,
// 34, 4, then 6 to 12 of the cursor's bytes, then 13 to 19 of the attempts'.
pub fn import<'a>(
    configuration: Configuration,
    area_len: usize,
    first: Generation,
    cursor: &'a [u8],
    attempts: &'a [u8],
) -> Started
    ensures { StartedIs configuration area_len (import (configuration_of configuration) area_len first.0 cursor.now attempts.now) result }
{
    let mut starts = [0u64; RANGES];
    let mut ends = [0u64; RANGES];
    let mut carried_offsets = [0u64; CARRIED];
    let mut carried_counts = [0u32; CARRIED];
    let done = in_place::import_in_place(
        configuration,
        area_len,
        first,
        cursor,
        attempts,
        &mut starts,
        &mut ends,
        &mut carried_offsets,
        &mut carried_counts,
    );
    started_with(
        configuration,
        area_len,
        done,
        starts,
        ends,
        carried_offsets,
        carried_counts,
    )
}
