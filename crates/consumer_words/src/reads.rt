// Questions of a consumer's words, as a server and the calls ask them. None changes a word; whether a worker may ask is for the caller to
// test.
ghost use Rattle.std.specs.Prelude.{◌≡◌, ◌-◌, eqb, length};
ghost use Rattle.types.specs.Limits.{MAX, WORKERS};
ghost use Rattle.types.specs.Keyed.{lookup};
ghost use Rattle.words.specs.Columns.{column};
ghost use Rattle.cursor.specs.Cursor.{settled};
ghost use Rattle.lease.specs.Operations.{lease_of};
ghost use Rattle.lease.specs.Rest.{in_flight};
ghost use Rattle.lease.specs.Lookup.{lease_in};
ghost use Rattle.consumer.specs.State.{half_end, count_or0};
ghost use Rattle.consumer.specs.Calls.{at_ceiling, at_threshold};
ghost use Rattle.consumer.specs.Questions.{count_of};
ghost use Rattle.consumer.specs.Standing.{supervises, in_full, view_of};
ghost use Rattle.consumer.specs.View.{view_in};
ghost use Rattle.consumer_words.specs.Layout.{WORDS, RIGHTS, view, Sound};

use crate::layout::{AREA_LEN, CEILING, CURSOR, NEXT_BLOCK, TABLE, THRESHOLD};
use crate::steps;
use consumer::rights::SUPERVISOR;
use consumer::views;
use consumer::views::{Holding, Standing, View};
use cursor::layout::COMMITTED;
use lease::Lease;
use types::Offset;

// The offset below which all are settled.
pub fn committed(words: &[u64]) -> Offset
    requires { Sound words.now }
    ensures { result.0 ≡ (view words.now).cursor.committed }
{
    Offset(words[CURSOR + COMMITTED])
}

// Whether an offset is settled: 22.
pub fn is_settled(words: &[u64], offset: Offset) -> bool
    requires { Sound words.now }
    ensures { result ≡ settled (view words.now).cursor offset.0 }
{
    cursor::in_words::is_acked(&words[CURSOR..TABLE], offset)
}

// The lease of an offset, run out or not.
pub fn lease_of(words: &[u64], offset: Offset) -> Option<Lease>
    requires { Sound words.now }
    ensures { lease_in result ≡ lease_of (view words.now).table offset.0 }
{
    lease::reads::lease_of(&words[TABLE..CEILING], offset)
}

// How often an offset was handed out, as the next checkpoint stores it: as its lease says, or else its carried count.
pub fn count_of(words: &[u64], offset: Offset) -> u32
    requires { Sound words.now }
    ensures { result ≡ count_of (view words.now) offset.0 }
{
    if let Some(lease) = lease_of(words, offset) {
        return lease.deliveries;
    }
    carried_count(words, offset)
}

// The carried count of an offset, 0 where there is none.
fn carried_count(words: &[u64], offset: Offset) -> u32
    requires { Sound words.now }
    ensures { result ≡ count_or0 (lookup offset.0 (view words.now).table.carried) }
{
    lease::reads::carried_count(&words[TABLE..CEILING], offset).unwrap_or(0)
}

// How many messages are in flight, their leases run out or not.
pub fn in_flight(words: &[u64]) -> usize
    requires { Sound words.now }
    ensures { result ≡ in_flight (view words.now).table }
{
    lease::reads::in_flight(&words[TABLE..CEILING])
}

// Whether no generation is left: 25.
pub fn is_exhausted(words: &[u64]) -> bool
    requires { Sound words.now }
    ensures { result ≡ eqb (view words.now).table.next_generation MAX }
{
    lease::reads::is_exhausted(&words[TABLE..CEILING])
}

// Whether no generation below the ceiling is left: 26.
pub fn is_at_ceiling(words: &[u64]) -> bool
    requires { Sound words.now }
    ensures { result ≡ at_ceiling (view words.now) }
{
    let next = lease::reads::next_generation(&words[TABLE..CEILING]);
    words[CEILING] <= next.0
}

// Whether the redeliveries since the last flush have reached the threshold: 26.
pub fn is_at_threshold(words: &[u64]) -> bool
    requires { Sound words.now }
    ensures { result ≡ at_threshold (view words.now) }
{
    let count = lease::reads::redeliveries_since_flush(&words[TABLE..CEILING]);
    words[THRESHOLD] <= u64::from(count)
}

// The blocks that are left in the half in use.
pub fn blocks_left(words: &[u64]) -> usize
    requires { Sound words.now }
    ensures { let s = view words.now in result ≡ half_end s.size s.next.block - s.next.block }
{
    consumer::halves::blocks_left(words[AREA_LEN] as usize, words[NEXT_BLOCK] as usize)
}

// Whether a worker is marked as a supervisor.
fn is_supervisor(words: &[u64], worker: u64) -> bool
    requires { length words.now ≡ WORDS }
    ensures { result ≡ supervises (column RIGHTS WORKERS words.now) worker }
{
    steps::permission_of(words, worker, SUPERVISOR).is_ok()
}

// What a worker is shown of an offset at a clock.
pub fn view_of(words: &[u64], worker: u64, offset: Offset, now: u64) -> View
    requires { Sound words.now }
    ensures { view_in result ≡ view_of (view words.now) worker offset.0 now }
{
    if is_settled(words, offset) {
        return View::Plain(Standing::Settled);
    }
    let found = lease_of(words, offset);
    if is_supervisor(words, worker) {
        return in_full(words, offset, now, found);
    }
    View::Plain(views::standing_of(found, now))
}

// What a supervisor is shown of an unsettled offset with this lease.
fn in_full(words: &[u64], offset: Offset, now: u64, found: Option<Lease>) -> View
    requires { Sound words.now }
    ensures { view_in result ≡ in_full (lease_in found) (lookup offset.0 (view words.now).table.carried) now }
{
    let standing = views::standing_of(found, now);
    if let Some(lease) = found {
        let generation = lease.generation;
        return View::Leased {
            standing,
            lease: Holding {
                attempts: lease.deliveries,
                generation,
                deadline: lease.deadline,
                holder: lease.worker,
            },
        };
    }
    View::Unleased {
        attempts: carried_count(words, offset),
    }
}
