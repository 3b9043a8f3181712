// The steps of the calls in place: the tests of a claim, of a token and of a commit, what an answer of the cursor or of the table
// becomes, and the waiting list.
ghost use Rattle.std.specs.Prelude.{◌≡◌, ◌≤◌, take};
ghost use Rattle.types.specs.Limits.{LEASES, CARRIED, sat64};
ghost use Rattle.cursor.specs.View.{ack_cursor};
ghost use Rattle.cursor.specs.View as cursor;
ghost use Rattle.cursor.specs.Answers.{ack_of};
ghost use Rattle.hours.specs.Hours.{next_opening};
ghost use Rattle.hours.specs.View as opening;
ghost use Rattle.lease.specs.Answers as answers;
ghost use Rattle.lease.specs.Parts as lease;
ghost use Rattle.consumer.specs.Calls.{is_full, is_shed};
ghost use Rattle.consumer.specs.View.{claim_of};
ghost use Rattle.consumer.specs.Parts.{testing, permitted, owning, deciding, awaiting, OpensIn, TestsIn, OpenAt, TokenIn, TokenAt, DecidesIn, WaitsIn, handed_out};

use crate::calls::HandOut;
use crate::rights;
use crate::rights::{CLAIM, COMMIT};
use cursor::BoundedAck;
use hours::Hours;
use lease::Grant;
use tables::Place;
use types::lent::OffsetList;
use types::limits::{CARRIED, LEASES, MAX, RANGES, WORKERS};
use types::refusals::Refusal;

// What stands against a claim: the first of 38, 39, 21, 22, 35, 23, 25, 26 and 27 that is met. An open claim has its offset at this
// place, or missing there.
pub fn claim_test<'a, 'b>(
    hours: Hours,
    ceiling: u64,
    threshold: u32,
    committed: u64,
    runs: usize,
    len: usize,
    carried_len: usize,
    next_generation: u64,
    redeliveries: u32,
    worker: u64,
    offset: u64,
    now: u64,
    rights: &'a [u8; WORKERS],
    starts: &'a [u64; RANGES],
    ends: &'a [u64; RANGES],
    offsets: &'b [u64; LEASES],
    slots: &'b [u32; LEASES],
    deadlines: &'b [u64; LEASES],
    carried_offsets: &'b [u64; CARRIED],
    carried_counts: &'b [u32; CARRIED],
) -> Result<Place, Refusal>
    requires { cursor.Whole (ack_cursor committed starts.now ends.now runs) × (len ≤ LEASES) × (carried_len ≤ CARRIED) }
    ensures { TestsIn result (permitted rights.now (testing hours ceiling threshold (ack_cursor committed starts.now ends.now runs) len carried_len next_generation redeliveries offsets.now slots.now deadlines.now carried_offsets.now carried_counts.now)) worker offset now × OpenAt offset (take len offsets.now) result }
{
    rights::permission_of(rights, worker, CLAIM)?;
    offset_test(
        hours,
        ceiling,
        threshold,
        committed,
        runs,
        len,
        carried_len,
        next_generation,
        redeliveries,
        offset,
        now,
        starts,
        ends,
        offsets,
        slots,
        deadlines,
        carried_offsets,
        carried_counts,
    )
}

// What stands against a claim that a worker may make: the first of 21, 22, 35, 23, 25, 26 and 27 that is met.
fn offset_test<'a, 'b>(
    hours: Hours,
    ceiling: u64,
    threshold: u32,
    committed: u64,
    runs: usize,
    len: usize,
    carried_len: usize,
    next_generation: u64,
    redeliveries: u32,
    offset: u64,
    now: u64,
    starts: &'a [u64; RANGES],
    ends: &'a [u64; RANGES],
    offsets: &'b [u64; LEASES],
    slots: &'b [u32; LEASES],
    deadlines: &'b [u64; LEASES],
    carried_offsets: &'b [u64; CARRIED],
    carried_counts: &'b [u32; CARRIED],
) -> Result<Place, Refusal>
    requires { cursor.Whole (ack_cursor committed starts.now ends.now runs) × (len ≤ LEASES) × (carried_len ≤ CARRIED) }
    ensures { OpensIn result (testing hours ceiling threshold (ack_cursor committed starts.now ends.now runs) len carried_len next_generation redeliveries offsets.now slots.now deadlines.now carried_offsets.now carried_counts.now) offset now × OpenAt offset (take len offsets.now) result }
{
    if offset == MAX {
        return Err(Refusal::LastOffset);
    }
    if cursor::in_place::is_acked_in_place(committed, starts, ends, runs, offset) {
        return Err(Refusal::Settled);
    }
    if let Some(opening) = hours.at(now) {
        return Err(Refusal::Closed { opening });
    }
    let place = tables::find(offsets, len, offset);
    if !lease::in_place::is_claimable_at(place, now, slots, deadlines) {
        return Err(Refusal::InFlight);
    }
    if next_generation == MAX {
        return Err(Refusal::Exhausted);
    }
    if ceiling <= next_generation {
        return Err(Refusal::CheckpointDue);
    }
    if threshold <= redeliveries {
        return Err(Refusal::CheckpointDue);
    }
    if is_full(
        place,
        len,
        carried_len,
        offset,
        carried_offsets,
        carried_counts,
    ) {
        return Err(Refusal::Full);
    }
    Ok(place)
}

// Whether there is no room for a lease of an offset, which stands at a place or belongs there, or for its count.
fn is_full<'a>(
    place: Place,
    len: usize,
    carried_len: usize,
    offset: u64,
    carried_offsets: &'a [u64; CARRIED],
    carried_counts: &'a [u32; CARRIED],
) -> bool
    requires { (len ≤ LEASES) × (carried_len ≤ CARRIED) }
    ensures { lease.HoldsAt offset place (lease.sized len carried_len carried_offsets.now carried_counts.now) (λ s. result ≡ is_full s offset) }
{
    let Place::Missing(_) = place else {
        return false;
    };
    if LEASES <= len {
        return true;
    }
    if len + carried_len < CARRIED {
        return false;
    }
    let carried = lease::in_place::carried_in_place(
        carried_len,
        offset,
        carried_offsets,
        carried_counts,
    );
    carried.is_none()
}

// What a claim answers for the table's answer: a count above the limit is for the dead letters.
pub fn handed_out(max_deliver: u32, outcome: Result<Grant, Refusal>) -> Result<HandOut, Refusal>
    ensures { claim_of result ≡ handed_out max_deliver (answers.claim_of outcome) }
{
    let grant = outcome?;
    let disposition = delivery::disposition_of(max_deliver, grant.deliveries);
    Ok(HandOut {
        token: grant.token,
        deliveries: grant.deliveries,
        disposition,
    })
}

// The lease that a token owns: how often it was handed out, and its place.
#[derive(Clone, Copy, Debug, PartialEq, Eq)]
pub struct HeldAt {
    pub deliveries: u32,
    pub at: usize,
}

// What stands in front of a call with a token that needs a bit of the rights, the first of 38, 39, 24 and 40 that is met: a token
// works for the worker who claimed its lease.
pub fn token_test<'a, 'b>(
    len: usize,
    worker: u64,
    bit: u8,
    offset: u64,
    generation: u64,
    rights: &'a [u8; WORKERS],
    offsets: &'b [u64; LEASES],
    slots: &'b [u32; LEASES],
    generations: &'b [u64; LEASES],
    deliveries: &'b [u32; LEASES],
    workers: &'b [u32; LEASES],
) -> Result<HeldAt, Refusal>
    requires { len ≤ LEASES }
    ensures { TokenIn result (owning rights.now len offsets.now slots.now generations.now deliveries.now workers.now) worker bit offset generation × TokenAt offset generation (take len offsets.now) slots.now generations.now result }
{
    rights::permission_of(rights, worker, bit)?;
    let hold = lease::in_place::hold_in_place(
        len,
        offset,
        generation,
        offsets,
        slots,
        generations,
        deliveries,
        workers,
    );
    let Some(held) = hold else {
        return Err(Refusal::Fenced);
    };
    if held.worker as u64 != worker {
        return Err(Refusal::ForeignToken);
    }
    Ok(HeldAt {
        deliveries: held.deliveries,
        at: held.at,
    })
}

// Whether the cursor had no room for an ack.
pub fn is_shed(outcome: BoundedAck) -> bool
    ensures { result ≡ is_shed (ack_of outcome) }
{
    matches!(outcome, BoundedAck::Shed)
}

// The delay of a nack at a clock, which has been capped, with its end moved to the next opening if that falls outside the hours.
pub fn delay_in_hours(hours: Hours, now: u64, delay_nanos: u64) -> u64
    ensures { sat64 now result ≡ next_opening (opening.view hours) (sat64 now delay_nanos) }
{
    hours.next_opening(now.saturating_add(delay_nanos)) - now
}

// Whether a commit takes effect: 38, 39, and not where the bound is not above committed.
pub fn commit_test(
    committed: u64,
    worker: u64,
    bound: u64,
    rights: &[u8; WORKERS],
) -> Result<bool, Refusal>
    ensures { DecidesIn result (deciding rights.now committed) worker bound }
{
    rights::permission_of(rights, worker, COMMIT)?;
    Ok(committed < bound)
}

// The waiting list in an array: the carried offsets, then those of expired leases, the longest waiting first. Each lease, from the first
// on, is put in behind all whose deadline is not later, so that of equal deadlines the lower offset stands in front; where deadlines rise
// with the offsets none is moved. There is room for all, since leases and carried offsets are at most 128 together.
pub fn waiting_list<'a>(
    len: usize,
    carried_len: usize,
    now: u64,
    offsets: &'a [u64; LEASES],
    slots: &'a [u32; LEASES],
    deadlines: &'a [u64; LEASES],
    carried_offsets: &'a [u64; CARRIED],
) -> OffsetList
    requires { (len ≤ LEASES) × (carried_len ≤ CARRIED) }
    ensures { WaitsIn result (awaiting len carried_len offsets.now slots.now deadlines.now carried_offsets.now) now }
{
    let mut listed = *carried_offsets;
    let mut by_deadline = [0u64; LEASES];
    let mut n: usize = 0;
    for i in 0..len {
        let slot = lease::in_place::slot_at(slots, i);
        let deadline = deadlines[slot];
        if deadline <= now {
            let at = tables::position_after(&by_deadline, n, deadline);
            tables::insert(&mut by_deadline, n, at, deadline);
            tables::insert(&mut listed, carried_len + n, carried_len + at, offsets[i]);
            n += 1;
        }
    }
    OffsetList {
        offsets: listed,
        len: carried_len + n,
    }
}
