// The calls on a lease table that is one lent list of words (`layout` says where its parts lie): each changes the words where they lie. A
// table by value, and one among the words of a consumer, are served by the same functions.
ghost use Rattle.std.specs.Prelude.{◌≡◌, false, ◌<◌, eqb, length};
ghost use Rattle.types.specs.Limits.{MAX};
ghost use Rattle.types.specs.Refusal.{done};
ghost use Rattle.types.specs.Table.{Passed};
ghost use Rattle.tables.specs.declared.Place.TheVariants.{Found, Missing};
ghost use Rattle.lease.specs.State.{starting_at};
ghost use Rattle.lease.specs.Operations.{claim_rows, claim, ack, extend, nack};
ghost use Rattle.lease.specs.Rest.{attempts_flushed, release_below, reseal_from_to, defer_redelivery, shift_deadlines};
ghost use Rattle.lease.specs.Answers.{claim_of, ack_of, extend_of, nack_of, grant_in};
ghost use Rattle.lease.specs.Layout.{WORDS, table_in, view, Sound};
ghost use Rattle.lease.specs.InWords.{Answers, Tries, Becomes, PlacedIn, AnswersOwned};

use crate::layout::{
    DEADLINES, DELIVERIES, GENERATIONS, HARD_CAP, NEXT, REDELIVERIES, SLOTS, STARTS, VISIBILITY,
};
use crate::{Grant, LeaseConfig, LeaseToken, reads, stored};
use tables::Place;
use types::refusals::Refusal;
use types::{Generation, Offset};

// Claims an offset for a worker: 23, 25, 27.
pub fn claim(table: &mut [u64], worker: u32, offset: Offset, now: u64) -> Result<Grant, Refusal>
    requires { Sound table.old }
    ensures { Answers (claim_of result) table.old table.new (claim (view table.old) worker offset.0 now) }
{
    let place = reads::find(table, offset);
    claim_at(table, place, worker, offset, now)
}

// The same where the offset was looked up.
pub fn claim_at(
    table: &mut [u64],
    place: Place,
    worker: u32,
    offset: Offset,
    now: u64,
) -> Result<Grant, Refusal>
    requires { Sound table.old × PlacedIn offset.0 table.old place }
    ensures { Answers (claim_of result) table.old table.new (claim (view table.old) worker offset.0 now) }
{
    if reads::is_running_at(table, place, now) {
        return Err(Refusal::InFlight);
    }
    if reads::is_exhausted(table) {
        return Err(Refusal::Exhausted);
    }
    if reads::is_full_at(table, place) {
        return Err(Refusal::Full);
    }
    Ok(grant_at(table, place, worker, offset, now))
}

// The same where no test of a claim is met: the offset is granted.
pub fn grant_at(table: &mut [u64], place: Place, worker: u32, offset: Offset, now: u64) -> Grant
    requires { Sound table.old × PlacedIn offset.0 table.old place × Passed (claim_rows (view table.old) offset.0 now) }
    ensures { Answers (done (grant_in result)) table.old table.new (claim (view table.old) worker offset.0 now) }
{
    match place {
        Place::Found(at) => grant_again(table, at, worker, offset, now),
        Place::Missing(at) => grant_first(table, at, worker, offset, now),
    }
}

// The lease at a place, which has run out, is granted again.
fn grant_again(table: &mut [u64], at: usize, worker: u32, offset: Offset, now: u64) -> Grant
    requires { Sound table.old × PlacedIn offset.0 table.old (Found at) × Passed (claim_rows (view table.old) offset.0 now) }
    ensures { Answers (done (grant_in result)) table.old table.new (claim (view table.old) worker offset.0 now) }
{
    let lease = stored::lease_at(table, at);
    let count = lease.deliveries.saturating_add(1);
    stored::grant(table, at, worker, offset, count, now)
}

// An offset that has no lease takes the first slot that is free, and its carried count goes over into the lease.
fn grant_first(table: &mut [u64], at: usize, worker: u32, offset: Offset, now: u64) -> Grant
    requires { Sound table.old × PlacedIn offset.0 table.old (Missing at) × Passed (claim_rows (view table.old) offset.0 now) }
    ensures { Answers (done (grant_in result)) table.old table.new (claim (view table.old) worker offset.0 now) }
{
    let prior = stored::take_carried(table, offset);
    let count = prior.saturating_add(1);
    stored::put_offset(table, at, offset);
    stored::grant(table, at, worker, offset, count, now)
}

// Acks the lease that a token owns, which is then gone: 24.
pub fn ack(table: &mut [u64], token: LeaseToken) -> Result<(), Refusal>
    requires { Sound table.old }
    ensures { Answers (ack_of result) table.old table.new (ack (view table.old) token.offset.0 token.generation.0) }
{
    let at = reads::owned(table, token).ok_or(Refusal::Fenced)?;
    ack_at(table, at);
    Ok(())
}

// The same where the token is known to own the lease at a place.
pub fn ack_at(table: &mut [u64], at: usize)
    requires { Sound table.old × (at < (table_in table.old).len) }
    ensures { AnswersOwned at (done tt) table.old table.new ack }
{
    stored::remove_offset(table, at);
}

// Extends the lease that a token owns by one visibility window from now, within the hard cap of its attempt: 24, 28.
pub fn extend(table: &mut [u64], token: LeaseToken, now: u64) -> Result<u64, Refusal>
    requires { Sound table.old }
    ensures { Answers (extend_of result) table.old table.new (extend (view table.old) token.offset.0 token.generation.0 now) }
{
    let at = reads::owned(table, token).ok_or(Refusal::Fenced)?;
    extend_at(table, at, now)
}

// The same where the token is known to own the lease at a place.
pub fn extend_at(table: &mut [u64], at: usize, now: u64) -> Result<u64, Refusal>
    requires { Sound table.old × (at < (table_in table.old).len) }
    ensures { AnswersOwned at (extend_of result) table.old table.new (λ t o g. extend t o g now) }
{
    let config = stored::config_of(table);
    let mut lease = stored::lease_at(table, at);
    if config.cap(lease.attempt_start) <= now {
        return Err(Refusal::CapReached);
    }
    let deadline = config.deadline(lease.attempt_start, now);
    lease.deadline = deadline;
    stored::put_lease(table, at, lease);
    Ok(deadline)
}

// Gives the lease that a token owns up: the message can be claimed again after the delay, which no cap bounds, since it belongs to the
// next attempt. A new generation fences the token off, and the count stays for the next claim: 24, 25.
pub fn nack(
    table: &mut [u64],
    token: LeaseToken,
    now: u64,
    delay_nanos: u64,
) -> Result<u64, Refusal>
    requires { Sound table.old }
    ensures { Answers (nack_of result) table.old table.new (nack (view table.old) token.offset.0 token.generation.0 now delay_nanos) }
{
    let at = reads::owned(table, token).ok_or(Refusal::Fenced)?;
    if reads::is_exhausted(table) {
        return Err(Refusal::Exhausted);
    }
    let deadline = requeue_at(table, at, now, delay_nanos);
    Ok(deadline)
}

// The same where the token is known to own the lease at a place, and a generation is left. It answers the deadline.
pub fn requeue_at(table: &mut [u64], at: usize, now: u64, delay_nanos: u64) -> u64
    requires { Sound table.old × (at < (table_in table.old).len) × (eqb (view table.old).next_generation MAX ≡ false) }
    ensures { AnswersOwned at (done result) table.old table.new (λ t o g. nack t o g now delay_nanos) }
{
    let generation = table[NEXT];
    let deadline = now.saturating_add(delay_nanos);
    let mut lease = stored::lease_at(table, at);
    lease.generation.0 = generation;
    lease.deadline = deadline;
    stored::put_lease(table, at, lease);
    table[NEXT] = generation + 1;
    deadline
}

// Puts the lease of an offset under another generation, if it still has the one that the caller claimed it under, and answers whether it
// had. The new generation is to be one that was given before, below the next.
pub fn reseal_from_to(
    table: &mut [u64],
    offset: Offset,
    from: Generation,
    generation: Generation,
) -> bool
    requires { Sound table.old }
    ensures { Tries result table.old table.new (reseal_from_to (view table.old) offset.0 from.0 generation.0) }
{
    let token = LeaseToken {
        offset,
        generation: from,
    };
    let Some(at) = reads::owned(table, token) else {
        return false;
    };
    let mut lease = stored::lease_at(table, at);
    lease.generation.0 = generation.0;
    stored::put_lease(table, at, lease);
    true
}

// Puts a lease that has run out off by a delay, which no cap bounds, and answers whether there was one; generation and count stay, since
// nobody is to be fenced off and nothing was handed out.
pub fn defer_redelivery(table: &mut [u64], offset: Offset, now: u64, delay_nanos: u64) -> bool
    requires { Sound table.old }
    ensures { Tries result table.old table.new (defer_redelivery (view table.old) offset.0 now delay_nanos) }
{
    let place = reads::find(table, offset);
    let Place::Found(at) = place else {
        return false;
    };
    let mut lease = stored::lease_at(table, at);
    if now < lease.deadline {
        return false;
    }
    lease.deadline = now.saturating_add(delay_nanos);
    stored::put_lease(table, at, lease);
    true
}

// Moves every lease's clock forward, its deadline and the start of its attempt: a pause that costs no lease its time.
pub fn shift_deadlines(table: &mut [u64], delta: u64)
    requires { Sound table.old }
    ensures { Becomes table.new (shift_deadlines (view table.old) delta) }
{
    stored::shift(&mut table[STARTS..DEADLINES], delta);
    stored::shift(&mut table[DEADLINES..DELIVERIES], delta);
}

// Releases every lease and every carried count below an offset: all that lies there is done.
pub fn release_below(table: &mut [u64], up_to: Offset)
    requires { Sound table.old }
    ensures { Becomes table.new (release_below (view table.old) up_to.0) }
{
    stored::release_counts(table, up_to);
    stored::release_leases(table, up_to);
}

// The attempt counts are durable: the counter starts anew.
pub fn note_attempts_flushed(table: &mut [u64])
    requires { Sound table.old }
    ensures { Becomes table.new (attempts_flushed (view table.old)) }
{
    let redeliveries = reads::redeliveries_since_flush(table);
    table[REDELIVERIES] = u64::from(redeliveries::after_flush(redeliveries));
}

// Makes an empty table of any words, whose first grant takes the given generation. Whoever keeps leases over restarts begins above every
// generation given before.
pub fn starting_at(table: &mut [u64], config: LeaseConfig, generation: Generation)
    requires { length table.old ≡ WORDS }
    ensures { Becomes table.new (starting_at config generation.0) }
{
    table.fill(0);
    stored::free_slots(&mut table[SLOTS..GENERATIONS]);
    table[NEXT] = generation.0;
    table[VISIBILITY] = config.visibility_nanos;
    table[HARD_CAP] = config.hard_cap_nanos;
}
