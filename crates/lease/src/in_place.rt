// The calls on a table that are made often, in place: each takes the numbers of a table by value and lent columns, and answers
// the numbers that changed. A table by value, and one that lies in another's memory, are served by the same function.
ghost use Rattle.std.specs.Prelude.{◌≡◌, ℕ, ◌≤◌, ◌<◌, take, get_or};
ghost use Rattle.types.specs.Limits.{MAX, LEASES, CARRIED};
ghost use Rattle.types.specs.Refusal.{done};
ghost use Rattle.types.specs.Keyed.{lookup};
ghost use Rattle.types.specs.Lists.{ListsOffsets, ListsCounts};
ghost use Rattle.tables.specs.Search.{Placed};
ghost use Rattle.tables.specs.declared.Place.TheVariants.{Missing};
ghost use Rattle.lease.specs.State.{view};
ghost use Rattle.lease.specs.Operations.{lease, lease_of, claim, ack, extend, nack};
ghost use Rattle.lease.specs.Rest.{release_below, is_claimable, deliveries_of, hold, expired};
ghost use Rattle.lease.specs.Counts.{attempt_counts, all_attempt_counts};
ghost use Rattle.lease.specs.Answers.{claim_of, extend_of, nack_of, attempts_of, Answers};
ghost use Rattle.lease.specs.Lookup.{lease_in, hold_in, HeldAt};
ghost use Rattle.lease.specs.Helpers.{granted_at, regranting, AnswersAt, Owned};
ghost use Rattle.lease.specs.Parts.{gathered, Whole, slot_in, AnswersOwned, BecomesIn, HoldsIn, HoldsAt, PlaceWithin, leasing, removing, extending, requeuing, releasing, counting, due, timing, listing, listing_all, carrying};

use crate::{Grant, Lease, LeaseConfig, LeaseToken};
use tables::{Place, counts};
use types::lent::{AttemptCounts, OffsetList};
use types::limits::{CARRIED, COUNTS, LEASES, MAX};
use types::refusals::Refusal;
use types::{Generation, Offset};

// What a claim answers, and the numbers of the table after it.
#[derive(Clone, Copy)]
pub struct ClaimedAt {
    pub outcome: Result<Grant, Refusal>,
    pub len: usize,
    pub carried_len: usize,
    pub next_generation: u64,
    pub redeliveries: u32,
}

// What `LeaseTable::claim` does to the parts of a table, where the offset stands at a place or belongs there.
pub fn claim_at(
    config: LeaseConfig,
    place: Place,
    len: usize,
    carried_len: usize,
    next: u64,
    redeliveries: u32,
    worker: u32,
    offset: u64,
    now: u64,
    offsets: &mut [u64; LEASES],
    slots: &mut [u32; LEASES],
    generations: &mut [u64; LEASES],
    attempt_starts: &mut [u64; LEASES],
    deadlines: &mut [u64; LEASES],
    deliveries: &mut [u32; LEASES],
    workers: &mut [u32; LEASES],
    carried_offsets: &mut [u64; CARRIED],
    carried_counts: &mut [u32; CARRIED],
) -> ClaimedAt
    requires { Whole (gathered config len carried_len next redeliveries offsets.old slots.old generations.old attempt_starts.old deadlines.old deliveries.old workers.old carried_offsets.old carried_counts.old) × Placed offset (take len offsets.old) place }
    ensures { Answers (claim_of result.outcome)
        (gathered config len carried_len next redeliveries offsets.old slots.old generations.old attempt_starts.old deadlines.old deliveries.old workers.old carried_offsets.old carried_counts.old)
        (gathered config result.len result.carried_len result.next_generation result.redeliveries offsets.new slots.new generations.new attempt_starts.new deadlines.new deliveries.new workers.new carried_offsets.new carried_counts.new)
        (claim (view (gathered config len carried_len next redeliveries offsets.old slots.old generations.old attempt_starts.old deadlines.old deliveries.old workers.old carried_offsets.old carried_counts.old)) worker offset now) }
{
    match place {
        Place::Found(at) => claim_again(
            config,
            at,
            len,
            carried_len,
            next,
            redeliveries,
            worker,
            offset,
            now,
            slots,
            generations,
            attempt_starts,
            deadlines,
            deliveries,
            workers,
        ),
        Place::Missing(at) => claim_first(
            config,
            at,
            len,
            carried_len,
            next,
            redeliveries,
            worker,
            offset,
            now,
            offsets,
            slots,
            generations,
            attempt_starts,
            deadlines,
            deliveries,
            workers,
            carried_offsets,
            carried_counts,
        ),
    }
}

// Claims an offset whose lease stands at a place.
fn claim_again(
    config: LeaseConfig,
    at: usize,
    len: usize,
    carried_len: usize,
    generation: u64,
    redeliveries: u32,
    worker: u32,
    offset: u64,
    now: u64,
    slots: &[u32; LEASES],
    generations: &mut [u64; LEASES],
    attempt_starts: &mut [u64; LEASES],
    deadlines: &mut [u64; LEASES],
    deliveries: &mut [u32; LEASES],
    workers: &mut [u32; LEASES],
) -> ClaimedAt
    requires { at < LEASES }
    ensures { AnswersAt offset at (claim_of result.outcome) (regranting config len carried_len generation redeliveries slots.now generations.old attempt_starts.old deadlines.old deliveries.old workers.old) (regranting config result.len result.carried_len result.next_generation result.redeliveries slots.now generations.new attempt_starts.new deadlines.new deliveries.new workers.new) (λ s. claim s worker offset now) }
{
    let slot = slot_at(slots, at);
    if now < deadlines[slot] {
        return ClaimedAt {
            outcome: Err(Refusal::InFlight),
            len,
            carried_len,
            next_generation: generation,
            redeliveries,
        };
    }
    if generation == MAX {
        return ClaimedAt {
            outcome: Err(Refusal::Exhausted),
            len,
            carried_len,
            next_generation: generation,
            redeliveries,
        };
    }
    let count = deliveries[slot].saturating_add(1);
    generations[slot] = generation;
    attempt_starts[slot] = now;
    deadlines[slot] = config.deadline(now, now);
    deliveries[slot] = count;
    workers[slot] = worker;
    granted(offset, generation, count, len, carried_len, redeliveries)
}

// Claims an offset that has no lease, and whose lease belongs at a place: it takes the first slot that is free.
fn claim_first(
    config: LeaseConfig,
    at: usize,
    len: usize,
    carried_len: usize,
    next: u64,
    redeliveries: u32,
    worker: u32,
    offset: u64,
    now: u64,
    offsets: &mut [u64; LEASES],
    slots: &mut [u32; LEASES],
    generations: &mut [u64; LEASES],
    attempt_starts: &mut [u64; LEASES],
    deadlines: &mut [u64; LEASES],
    deliveries: &mut [u32; LEASES],
    workers: &mut [u32; LEASES],
    carried_offsets: &mut [u64; CARRIED],
    carried_counts: &mut [u32; CARRIED],
) -> ClaimedAt
    requires { Whole (gathered config len carried_len next redeliveries offsets.old slots.old generations.old attempt_starts.old deadlines.old deliveries.old workers.old carried_offsets.old carried_counts.old) × Placed offset (take len offsets.old) (Missing at) }
    ensures { Answers (claim_of result.outcome)
        (gathered config len carried_len next redeliveries offsets.old slots.old generations.old attempt_starts.old deadlines.old deliveries.old workers.old carried_offsets.old carried_counts.old)
        (gathered config result.len result.carried_len result.next_generation result.redeliveries offsets.new slots.new generations.new attempt_starts.new deadlines.new deliveries.new workers.new carried_offsets.new carried_counts.new)
        (claim (view (gathered config len carried_len next redeliveries offsets.old slots.old generations.old attempt_starts.old deadlines.old deliveries.old workers.old carried_offsets.old carried_counts.old)) worker offset now) }
{
    if next == MAX {
        return ClaimedAt {
            outcome: Err(Refusal::Exhausted),
            len,
            carried_len,
            next_generation: next,
            redeliveries,
        };
    }
    if LEASES <= len {
        return ClaimedAt {
            outcome: Err(Refusal::Full),
            len,
            carried_len,
            next_generation: next,
            redeliveries,
        };
    }
    let prior = counts::count_of(carried_offsets, carried_counts, carried_len, offset);
    tables::remove(carried_offsets, carried_len, prior.from, prior.to);
    tables::remove(carried_counts, carried_len, prior.from, prior.to);
    let left = carried_len - (prior.to - prior.from);
    let count = prior.count.saturating_add(1);
    let deadline = config.deadline(now, now);
    let taken = slots[len];
    let free = slot_at(slots, len);
    tables::insert(offsets, len, at, offset);
    tables::insert(slots, len, at, taken);
    generations[free] = next;
    attempt_starts[free] = now;
    deadlines[free] = deadline;
    deliveries[free] = count;
    workers[free] = worker;
    granted(offset, next, count, len + 1, left, redeliveries)
}

// What a claim that is granted answers: the generation is taken, and a redelivery counted.
fn granted(
    offset: u64,
    generation: u64,
    count: u32,
    len: usize,
    carried_len: usize,
    redeliveries: u32,
) -> ClaimedAt
    requires { generation < MAX }
    ensures { result ≡ granted_at offset generation count len carried_len redeliveries }
{
    let token = LeaseToken {
        offset: Offset(offset),
        generation: Generation(generation),
    };
    let outcome = Ok(Grant {
        token,
        deliveries: count,
    });
    let counted = redeliveries::after_grant(redeliveries, count);
    ClaimedAt {
        outcome,
        len,
        carried_len,
        next_generation: generation + 1,
        redeliveries: counted,
    }
}

// Where the lease stands that a token owns: the test that every call with a token begins with.
pub(crate) fn owned(
    len: usize,
    offset: u64,
    generation: u64,
    offsets: &[u64; LEASES],
    slots: &[u32; LEASES],
    generations: &[u64; LEASES],
) -> Option<usize>
    requires { len ≤ LEASES }
    ensures { Owned offset generation (take len offsets.now) slots.now generations.now result }
{
    let place = tables::find(offsets, len, offset);
    let Place::Found(at) = place else {
        return None;
    };
    let slot = slot_at(slots, at);
    if generations[slot] == generation {
        return Some(at);
    }
    None
}

// What `LeaseTable::ack` does where the token owns the lease at a place: the lease goes, and its slot to the free ones. It answers
// how many leases are left.
pub fn ack_at(
    at: usize,
    len: usize,
    offsets: &mut [u64; LEASES],
    slots: &mut [u32; LEASES],
) -> usize
    requires { (at < len) × (len ≤ LEASES) }
    ensures { AnswersOwned at (done tt) (removing len offsets.old slots.old) (removing result offsets.new slots.new) (λ o g s. ack s o g) }
{
    let freed = slots[at];
    let next = at + 1;
    let last = len - 1;
    tables::remove(offsets, len, at, next);
    tables::remove(slots, len, at, next);
    slots[last] = freed;
    last
}

// What `LeaseTable::extend` does where the token owns the lease at a place.
pub fn extend_at(
    config: LeaseConfig,
    at: usize,
    now: u64,
    slots: &[u32; LEASES],
    attempt_starts: &[u64; LEASES],
    deadlines: &mut [u64; LEASES],
) -> Result<u64, Refusal>
    requires { at < LEASES }
    ensures { AnswersOwned at (extend_of result) (extending config slots.now attempt_starts.now deadlines.old) (extending config slots.now attempt_starts.now deadlines.new) (λ o g s. extend s o g now) }
{
    let slot = slot_at(slots, at);
    let start = attempt_starts[slot];
    if config.cap(start) <= now {
        return Err(Refusal::CapReached);
    }
    let deadline = config.deadline(start, now);
    deadlines[slot] = deadline;
    Ok(deadline)
}

// What a nack answers, and what the next grant or nack takes.
#[derive(Clone, Copy)]
pub struct NackedAt {
    pub outcome: Result<u64, Refusal>,
    pub next_generation: u64,
}

// What `LeaseTable::nack` does where the token owns the lease at a place.
pub fn nack_at(
    at: usize,
    next_generation: u64,
    now: u64,
    delay_nanos: u64,
    slots: &[u32; LEASES],
    generations: &mut [u64; LEASES],
    deadlines: &mut [u64; LEASES],
) -> NackedAt
    requires { at < LEASES }
    ensures { AnswersOwned at (nack_of result.outcome) (requeuing next_generation slots.now generations.old deadlines.old) (requeuing result.next_generation slots.now generations.new deadlines.new) (λ o g s. nack s o g now delay_nanos) }
{
    if next_generation == MAX {
        return NackedAt {
            outcome: Err(Refusal::Exhausted),
            next_generation,
        };
    }
    let slot = slot_at(slots, at);
    let deadline = now.saturating_add(delay_nanos);
    generations[slot] = next_generation;
    deadlines[slot] = deadline;
    NackedAt {
        outcome: Ok(deadline),
        next_generation: next_generation + 1,
    }
}

// How many leases and how many carried counts there are after those below a bound were released.
#[derive(Clone, Copy)]
pub struct ReleasedAt {
    pub len: usize,
    pub carried_len: usize,
}

// What `LeaseTable::release_below` does to the parts of a table. The slots of the leases that go are free then.
pub fn release_below_in_place(
    len: usize,
    carried_len: usize,
    up_to: u64,
    offsets: &mut [u64; LEASES],
    slots: &mut [u32; LEASES],
    carried_offsets: &mut [u64; CARRIED],
    carried_counts: &mut [u32; CARRIED],
) -> ReleasedAt
    requires { len ≤ LEASES }
    ensures { BecomesIn
        (releasing len carried_len offsets.old slots.old carried_offsets.old carried_counts.old)
        (releasing result.len result.carried_len offsets.new slots.new carried_offsets.new carried_counts.new)
        (λ s. release_below s up_to) }
{
    let carried = tables::position(carried_offsets, carried_len, up_to);
    tables::remove(carried_offsets, carried_len, 0, carried);
    tables::remove(carried_counts, carried_len, 0, carried);
    let first = tables::position(offsets, len, up_to);
    tables::remove(offsets, len, 0, first);
    tables::set_aside(slots, len, first);
    ReleasedAt {
        len: len - first,
        carried_len: carried_len - carried,
    }
}

// The slot at a place: where the other columns have its lease.
pub fn slot_at(slots: &[u32; LEASES], at: usize) -> usize
    requires { at < LEASES }
    ensures { (result ≡ slot_in slots.now at) × (result < LEASES) }
{
    slots[at] as usize % LEASES
}

// The lease at a place of the table.
pub fn lease_at(
    at: usize,
    slots: &[u32; LEASES],
    generations: &[u64; LEASES],
    attempt_starts: &[u64; LEASES],
    deadlines: &[u64; LEASES],
    deliveries: &[u32; LEASES],
    workers: &[u32; LEASES],
) -> Lease
    requires { at < LEASES }
    ensures { result ≡ lease (get_or generations.now (slot_in slots.now at) 0) (get_or attempt_starts.now (slot_in slots.now at) 0) (get_or deadlines.now (slot_in slots.now at) 0) (get_or deliveries.now (slot_in slots.now at) 0) (get_or workers.now (slot_in slots.now at) 0) }
{
    let slot = slot_at(slots, at);
    let generation = Generation(generations[slot]);
    Lease {
        generation,
        attempt_start: attempt_starts[slot],
        deadline: deadlines[slot],
        deliveries: deliveries[slot],
        worker: workers[slot],
    }
}

// What `LeaseTable::lease_of` answers.
pub fn lease_in_place(
    len: usize,
    offset: u64,
    offsets: &[u64; LEASES],
    slots: &[u32; LEASES],
    generations: &[u64; LEASES],
    attempt_starts: &[u64; LEASES],
    deadlines: &[u64; LEASES],
    deliveries: &[u32; LEASES],
    workers: &[u32; LEASES],
) -> Option<Lease>
    requires { len ≤ LEASES }
    ensures { HoldsIn (leasing len offsets.now slots.now generations.now attempt_starts.now deadlines.now deliveries.now workers.now) (λ s. lease_in result ≡ lease_of s offset) }
{
    let place = tables::find(offsets, len, offset);
    let Place::Found(at) = place else {
        return None;
    };
    Some(lease_at(
        at,
        slots,
        generations,
        attempt_starts,
        deadlines,
        deliveries,
        workers,
    ))
}

// The lease that a token owns: how often it was handed out, the worker who claimed it, and its place, where a call with the token
// finds it again.
#[derive(Clone, Copy, Debug, PartialEq, Eq)]
pub struct Held {
    pub deliveries: u32,
    pub worker: u32,
    pub at: usize,
}

// What a call with a token asks of its lease.
pub fn hold_in_place(
    len: usize,
    offset: u64,
    generation: u64,
    offsets: &[u64; LEASES],
    slots: &[u32; LEASES],
    generations: &[u64; LEASES],
    deliveries: &[u32; LEASES],
    workers: &[u32; LEASES],
) -> Option<Held>
    requires { len ≤ LEASES }
    ensures { HoldsIn (counting len offsets.now slots.now generations.now deliveries.now workers.now) (λ s. hold_in result ≡ hold s offset generation) × HeldAt offset generation (take len offsets.now) slots.now generations.now result }
{
    let at = owned(len, offset, generation, offsets, slots, generations)?;
    let slot = slot_at(slots, at);
    let worker = workers[slot];
    Some(Held {
        deliveries: deliveries[slot],
        worker,
        at,
    })
}

// How often an offset that is in flight was handed out.
pub fn count_in_place(
    len: usize,
    offset: u64,
    offsets: &[u64; LEASES],
    slots: &[u32; LEASES],
    deliveries: &[u32; LEASES],
) -> Option<u32>
    requires { len ≤ LEASES }
    ensures { HoldsIn (listing len offsets.now slots.now deliveries.now) (λ s. attempts_of result ≡ deliveries_of (lease_of s offset)) }
{
    let place = tables::find(offsets, len, offset);
    let Place::Found(at) = place else {
        return None;
    };
    let slot = slot_at(slots, at);
    Some(deliveries[slot])
}

// What `LeaseTable::is_claimable` answers, where the offset stands at a place or belongs there.
pub fn is_claimable_at(
    place: Place,
    now: u64,
    slots: &[u32; LEASES],
    deadlines: &[u64; LEASES],
) -> bool
    requires { PlaceWithin LEASES place }
    ensures { (o : ℕ) → HoldsAt o place (due slots.now deadlines.now) (λ s. result ≡ is_claimable s o now) }
{
    let Place::Found(at) = place else {
        return true;
    };
    let slot = slot_at(slots, at);
    deadlines[slot] <= now
}

// What `LeaseTable::carried_count` answers.
pub fn carried_in_place(
    carried_len: usize,
    offset: u64,
    carried_offsets: &[u64; CARRIED],
    carried_counts: &[u32; CARRIED],
) -> Option<u32>
    requires { carried_len ≤ CARRIED }
    ensures { HoldsIn (carrying carried_len carried_offsets.now carried_counts.now) (λ s. attempts_of result ≡ lookup offset s.carried) }
{
    let place = tables::find(carried_offsets, carried_len, offset);
    let Place::Found(at) = place else {
        return None;
    };
    Some(carried_counts[at])
}

// What `LeaseTable::lease_counts` answers.
pub fn lease_counts_in_place(
    len: usize,
    offsets: &[u64; LEASES],
    slots: &[u32; LEASES],
    deliveries: &[u32; LEASES],
) -> AttemptCounts
    requires { len ≤ LEASES }
    ensures { HoldsIn (listing len offsets.now slots.now deliveries.now) (λ s. ListsCounts result (attempt_counts s)) }
{
    let mut listed = [0u64; COUNTS];
    let mut attempts = [0u32; COUNTS];
    for i in 0..len {
        listed[i] = offsets[i];
        let slot = slot_at(slots, i);
        attempts[i] = deliveries[slot];
    }
    AttemptCounts {
        offsets: listed,
        attempts,
        len,
    }
}

// What `LeaseTable::all_counts` answers.
pub fn all_counts_in_place(
    len: usize,
    carried_len: usize,
    offsets: &[u64; LEASES],
    slots: &[u32; LEASES],
    deliveries: &[u32; LEASES],
    carried_offsets: &[u64; CARRIED],
    carried_counts: &[u32; CARRIED],
) -> AttemptCounts
    requires { len ≤ LEASES }
    ensures { HoldsIn (listing_all len carried_len offsets.now slots.now deliveries.now carried_offsets.now carried_counts.now) (λ s. ListsCounts result (all_attempt_counts s)) }
{
    let leased = lease_counts_in_place(len, offsets, slots, deliveries);
    counts::merged(leased, carried_offsets, carried_counts, carried_len)
}

// What `LeaseTable::expired_list` answers.
pub fn expired_in_place(
    len: usize,
    now: u64,
    offsets: &[u64; LEASES],
    slots: &[u32; LEASES],
    deadlines: &[u64; LEASES],
) -> OffsetList
    requires { len ≤ LEASES }
    ensures { HoldsIn (timing len offsets.now slots.now deadlines.now) (λ s. ListsOffsets result (expired s now)) }
{
    let mut listed = [0u64; CARRIED];
    let mut n: usize = 0;
    for i in 0..len {
        let slot = slot_at(slots, i);
        if deadlines[slot] <= now {
            listed[n] = offsets[i];
            n += 1;
        }
    }
    OffsetList {
        offsets: listed,
        len: n,
    }
}
