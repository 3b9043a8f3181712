// What a table's words hold, read and stored: the lease at a place, offsets and carried counts put in and taken out, the words of an
// empty table.
ghost use Rattle.std.specs.Prelude.{◌≡◌, ◌≤◌, ◌<◌, ◌++◌, map, length, take, drop, replicate};
ghost use Rattle.types.specs.Limits.{MAX, LEASES, CARRIED};
ghost use Rattle.tables.specs.Slots.{upTo};
ghost use Rattle.lease.specs.Helpers.{later_by};
ghost use Rattle.lease.specs.Parts.{slot_in};
ghost use Rattle.lease.specs.Layout.{WORDS, config_in, table_in, Fits, Sound};
ghost use Rattle.lease.specs.Stored.{held_at, holding, granting, handed_out, placing, displacing, Passes, CountsReleased, LeasesReleased};

use crate::layout::{
    CARRIED_COUNTS, CARRIED_LEN, CARRIED_OFFSETS, DEADLINES, DELIVERIES, GENERATIONS, HARD_CAP,
    LEN, NEXT, OFFSETS, REDELIVERIES, SLOTS, STARTS, VISIBILITY, WORDS, WORKERS,
};
use crate::{Grant, Lease, LeaseConfig, LeaseToken};
use tables::Place;
use types::limits::LEASES;
use types::{Generation, Offset};

// The configuration.
pub(crate) fn config_of(table: &[u64]) -> LeaseConfig
    requires { length table.now ≡ WORDS }
    ensures { result ≡ config_in table.now }
{
    LeaseConfig {
        visibility_nanos: table[VISIBILITY],
        hard_cap_nanos: table[HARD_CAP],
    }
}

// The slot of a place: where the columns of the leases have its lease.
fn slot_at(table: &[u64], at: usize) -> usize
    requires { (length table.now ≡ WORDS) × (at < LEASES) }
    ensures { (result ≡ slot_in (table_in table.now).slots at) × (result < LEASES) }
{
    table[SLOTS + at] as usize % LEASES
}

// The lease at a place.
pub(crate) fn lease_at(table: &[u64], at: usize) -> Lease
    requires { Sound table.now × (at < LEASES) }
    ensures { result ≡ held_at at (table_in table.now) }
{
    let slot = slot_at(table, at);
    Lease {
        generation: Generation(table[GENERATIONS + slot]),
        attempt_start: table[STARTS + slot],
        deadline: table[DEADLINES + slot],
        deliveries: table[DELIVERIES + slot] as u32,
        worker: table[WORKERS + slot] as u32,
    }
}

// Stores a lease at a place.
pub(crate) fn put_lease(table: &mut [u64], at: usize, lease: Lease)
    requires { (length table.old ≡ WORDS) × (at < LEASES) }
    ensures { table_in table.new ≡ holding at lease (table_in table.old) }
{
    let slot = slot_at(table, at);
    table[GENERATIONS + slot] = lease.generation.0;
    table[STARTS + slot] = lease.attempt_start;
    table[DEADLINES + slot] = lease.deadline;
    table[DELIVERIES + slot] = u64::from(lease.deliveries);
    table[WORKERS + slot] = u64::from(lease.worker);
}

// Stores the lease of a grant at a place, under the next generation, which is taken, and counts it where it is a redelivery.
pub(crate) fn grant(
    table: &mut [u64],
    at: usize,
    worker: u32,
    offset: Offset,
    count: u32,
    now: u64,
) -> Grant
    requires { (length table.old ≡ WORDS) × Fits (table_in table.old) × (at < LEASES) × ((table_in table.old).next_generation.0 < MAX) }
    ensures { (table_in table.new ≡ granting at worker now count (table_in table.old))
        × (result ≡ handed_out offset.0 count (table_in table.old)) }
{
    let generation = table[NEXT];
    let redeliveries = table[REDELIVERIES] as u32;
    let config = config_of(table);
    let deadline = config.deadline(now, now);
    let lease = Lease {
        generation: Generation(generation),
        attempt_start: now,
        deadline,
        deliveries: count,
        worker,
    };
    put_lease(table, at, lease);
    table[NEXT] = generation + 1;
    table[REDELIVERIES] = u64::from(redeliveries::after_grant(redeliveries, count));
    let token = LeaseToken {
        offset,
        generation: Generation(generation),
    };
    Grant {
        token,
        deliveries: count,
    }
}

// Puts an offset in at a place, with the first slot that is free.
pub(crate) fn put_offset(table: &mut [u64], at: usize, offset: Offset)
    requires { (length table.old ≡ WORDS) × ((table_in table.old).len < LEASES) }
    ensures { table_in table.new ≡ placing at offset.0 (table_in table.old) }
{
    let len = table[LEN] as usize;
    let free = table[SLOTS + len];
    tables::insert(&mut table[OFFSETS..SLOTS], len, at, offset.0);
    tables::insert(&mut table[SLOTS..GENERATIONS], len, at, free);
    table[LEN] = (len + 1) as u64;
}

// Takes the offset at a place out; its slot goes to the free ones.
pub(crate) fn remove_offset(table: &mut [u64], at: usize)
    requires { (length table.old ≡ WORDS) × (at < (table_in table.old).len) × ((table_in table.old).len ≤ LEASES) }
    ensures { table_in table.new ≡ displacing at (table_in table.old) }
{
    let len = table[LEN] as usize;
    let freed = table[SLOTS + at];
    let last = len - 1;
    tables::remove(&mut table[OFFSETS..SLOTS], len, at, at + 1);
    tables::remove(&mut table[SLOTS..GENERATIONS], len, at, at + 1);
    table[SLOTS + last] = freed;
    table[LEN] = last as u64;
}

// Takes the carried count of an offset out, and answers it: 0 where it has none.
pub(crate) fn take_carried(table: &mut [u64], offset: Offset) -> u32
    requires { Sound table.old }
    ensures { Passes offset.0 result (table_in table.old) (table_in table.new) }
{
    let len = table[CARRIED_LEN] as usize;
    let place = tables::find(&table[CARRIED_OFFSETS..CARRIED_COUNTS], len, offset.0);
    match place {
        Place::Missing(_) => 0,
        Place::Found(at) => {
            let count = table[CARRIED_COUNTS + at] as u32;
            tables::remove(&mut table[CARRIED_OFFSETS..CARRIED_COUNTS], len, at, at + 1);
            tables::remove(&mut table[CARRIED_COUNTS..WORDS], len, at, at + 1);
            table[CARRIED_LEN] = (len - 1) as u64;
            count
        }
    }
}

// Takes the carried counts of the offsets below a bound out.
pub(crate) fn release_counts(table: &mut [u64], up_to: Offset)
    requires { (length table.old ≡ WORDS) × ((table_in table.old).carried_len ≤ CARRIED) }
    ensures { CountsReleased up_to.0 (table_in table.old) (table_in table.new) }
{
    let len = table[CARRIED_LEN] as usize;
    let to = tables::position(&table[CARRIED_OFFSETS..CARRIED_COUNTS], len, up_to.0);
    tables::remove(&mut table[CARRIED_OFFSETS..CARRIED_COUNTS], len, 0, to);
    tables::remove(&mut table[CARRIED_COUNTS..WORDS], len, 0, to);
    table[CARRIED_LEN] = (len - to) as u64;
}

// Takes the leases below a bound out. Their slots are free then.
pub(crate) fn release_leases(table: &mut [u64], up_to: Offset)
    requires { (length table.old ≡ WORDS) × ((table_in table.old).len ≤ LEASES) }
    ensures { LeasesReleased up_to.0 (table_in table.old) (table_in table.new) }
{
    let len = table[LEN] as usize;
    let to = tables::position(&table[OFFSETS..SLOTS], len, up_to.0);
    tables::remove(&mut table[OFFSETS..SLOTS], len, 0, to);
    tables::set_aside(&mut table[SLOTS..GENERATIONS], len, to);
    table[LEN] = (len - to) as u64;
}

// Moves the times of a column forward, those that no lease has too.
pub(crate) fn shift(times: &mut [u64], delta: u64)
    ensures { times.new ≡ map (later_by delta) times.old }
{
    for time in times.iter_mut() {
        *time = time.saturating_add(delta);
    }
}

// Stores the first `count` numbers of a column of counts in a column of words.
pub(crate) fn put_counts(column: &mut [u64], counts: &[u32], count: usize)
    requires { (count ≤ length column.old) × (count ≤ length counts.now) }
    ensures { column.new ≡ take count counts.now ++ drop count column.old }
{
    for i in 0..count {
        column[i] = u64::from(counts[i]);
    }
}

// Stores every slot, in its order: all of them are free.
pub(crate) fn free_slots(slots: &mut [u64])
    ensures { slots.new ≡ upTo (length slots.old) }
{
    for i in 0..slots.len() {
        slots[i] = i as u64;
    }
}
