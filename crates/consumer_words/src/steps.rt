// The tests of the calls, each of which looks at a consumer's words: the worker's rights, the claim's own, the token's; and the delay of a
// nack.
ghost use Rattle.std.specs.Prelude.{◌≡◌, length};
ghost use Rattle.types.specs.Limits.{WORKERS};
ghost use Rattle.types.specs.Table.{first};
ghost use Rattle.words.specs.Columns.{column};
ghost use Rattle.delivery.specs.Config.{delay_of};
ghost use Rattle.lease.specs.Layout as lease;
ghost use Rattle.lease.specs.InWords.{PlacedIn};
ghost use Rattle.consumer.specs.Rights.{worker_rows};
ghost use Rattle.consumer.specs.Calls.{claim_rows, claim_table, is_full};
ghost use Rattle.consumer.specs.View.{permission_of};
ghost use Rattle.consumer_words.specs.Layout.{WORDS, RIGHTS, hours_in, view, Sound};
ghost use Rattle.consumer_words.specs.InWords.{Tests, Allows, Delays};

use crate::layout::{
    BACKOFF_LEN, BACKOFFS, CEILING, DAYS, HOURS_GIVEN, RIGHTS, SHIFT, TABLE, WORDS,
};
use crate::reads;
use consumer::rights::CLAIM;
use consumer::steps::HeldAt;
use hours::Hours;
use lease::LeaseToken;
use tables::Place;
use types::Offset;
use types::limits::{CARRIED, MAX, WORKERS};
use types::refusals::Refusal;

// Whether a worker has a bit among the rights; no worker has bit 0: 38, 39.
pub fn permission_of(words: &[u64], worker: u64, bit: u8) -> Result<(), Refusal>
    requires { length words.now ≡ WORDS }
    ensures { permission_of result ≡ first (worker_rows (column RIGHTS WORKERS words.now) worker bit) }
{
    if WORKERS as u64 <= worker {
        return Err(Refusal::UnknownWorker);
    }
    if bit == 0 {
        return Err(Refusal::NotPermitted);
    }
    if words[RIGHTS + worker as usize] / bit as u64 % 2 == 1 {
        return Ok(());
    }
    Err(Refusal::NotPermitted)
}

// What stands against a claim: the first of 38, 39, 21, 22, 35, 23, 25, 26 and 27 that is met. Where none is, it is where the offset stands
// among those with a lease, or belongs.
pub(crate) fn claim_test(
    words: &[u64],
    worker: u64,
    offset: Offset,
    now: u64,
) -> Result<Place, Refusal>
    requires { Sound words.now }
    ensures { Tests (claim_table (view words.now) worker offset.0 now) offset.0 words.now result }
{
    permission_of(words, worker, CLAIM)?;
    offset_test(words, offset, now)
}

// What stands against a claim that a worker may make: the first of 21, 22, 35, 23, 25, 26 and 27 that is met.
fn offset_test(words: &[u64], offset: Offset, now: u64) -> Result<Place, Refusal>
    requires { Sound words.now }
    ensures { Tests (claim_rows (view words.now) offset.0 now) offset.0 words.now result }
{
    if offset.0 == MAX {
        return Err(Refusal::LastOffset);
    }
    if reads::is_settled(words, offset) {
        return Err(Refusal::Settled);
    }
    let hours = hours_of(words);
    if let Some(opening) = hours.at(now) {
        return Err(Refusal::Closed { opening });
    }
    let table = &words[TABLE..CEILING];
    let place = lease::reads::find(table, offset);
    if lease::reads::is_running_at(table, place, now) {
        return Err(Refusal::InFlight);
    }
    if lease::reads::is_exhausted(table) {
        return Err(Refusal::Exhausted);
    }
    if reads::is_at_ceiling(words) {
        return Err(Refusal::CheckpointDue);
    }
    if reads::is_at_threshold(words) {
        return Err(Refusal::CheckpointDue);
    }
    if is_full(table, place, offset) {
        return Err(Refusal::Full);
    }
    Ok(place)
}

// The hours.
fn hours_of(words: &[u64]) -> Hours
    requires { length words.now ≡ WORDS }
    ensures { result ≡ hours_in words.now }
{
    let mut days = [0; 7];
    days.copy_from_slice(&words[DAYS..WORDS]);
    Hours {
        given: words[HOURS_GIVEN] != 0,
        shift: words[SHIFT],
        days,
    }
}

// Whether there is no room for a lease of an offset, which stands at a place or belongs there, or for its count: 27.
fn is_full(table: &[u64], place: Place, offset: Offset) -> bool
    requires { lease.Sound table.now × PlacedIn offset.0 table.now place }
    ensures { result ≡ is_full (lease.view table.now) offset.0 }
{
    let Place::Missing(_) = place else {
        return false;
    };
    if lease::reads::is_full_at(table, place) {
        return true;
    }
    if lease::reads::in_flight(table) + lease::reads::carried(table) < CARRIED {
        return false;
    }
    lease::reads::carried_count(table, offset).is_none()
}

// What stands in front of a call with a token that needs a bit of the rights: 38, 39, 24, 40. A token works for the worker who claimed its
// lease.
pub(crate) fn token_test(
    words: &[u64],
    worker: u64,
    bit: u8,
    token: LeaseToken,
) -> Result<HeldAt, Refusal>
    requires { Sound words.now }
    ensures { Allows words.now worker bit token.offset.0 token.generation.0 result }
{
    permission_of(words, worker, bit)?;
    let Some(held) = lease::reads::hold_of(&words[TABLE..CEILING], token) else {
        return Err(Refusal::Fenced);
    };
    if held.worker as u64 != worker {
        return Err(Refusal::ForeignToken);
    }
    Ok(HeldAt {
        deliveries: held.deliveries,
        at: held.at,
    })
}

// How long a message that was handed out so often waits after a nack: its own delay or the schedule's, at most the hard cap, and on to
// the next opening if that falls outside the hours.
pub(crate) fn nack_delay(words: &[u64], attempt: u32, now: u64, delay: Option<u64>) -> u64
    requires { Sound words.now }
    ensures { Delays words.now attempt now (delay_of delay) result }
{
    let config = lease::reads::config(&words[TABLE..CEILING]);
    let backoffs = &words[BACKOFFS..BACKOFFS + words[BACKOFF_LEN] as usize];
    let capped_nanos = delivery::nack_delay(backoffs, attempt, delay, config.hard_cap_nanos);
    consumer::steps::delay_in_hours(hours_of(words), now, capped_nanos)
}
