// Questions of a table's words: the place of an offset, what a place or a token says, and what the table says of one offset.
ghost use Rattle.std.specs.Prelude.{◌≡◌, eqb, length};
ghost use Rattle.types.specs.Limits.{MAX, LEASES};
ghost use Rattle.types.specs.Keyed.{lookup};
ghost use Rattle.lease.specs.Operations.{lease_of};
ghost use Rattle.lease.specs.Rest.{in_flight, is_claimable, deliveries, holds_active, pending_redelivery_attempt};
ghost use Rattle.lease.specs.Answers.{attempts_of};
ghost use Rattle.lease.specs.Lookup.{lease_in};
ghost use Rattle.lease.specs.Parts.{PlaceWithin};
ghost use Rattle.lease.specs.Layout.{view, Sound};
ghost use Rattle.lease.specs.InWords.{PlacedIn, RunsAt, FullAt, OwnedIn, Holds};

use crate::in_place::Held;
use crate::layout::{
    CARRIED_COUNTS, CARRIED_LEN, CARRIED_OFFSETS, LEN, NEXT, OFFSETS, REDELIVERIES, SLOTS,
};
use crate::{Lease, LeaseConfig, LeaseToken, stored};
use tables::Place;
use types::limits::{LEASES, MAX};
use types::{Generation, Offset};

// Where an offset stands among those with a lease, or belongs.
pub fn find(table: &[u64], offset: Offset) -> Place
    requires { Sound table.now }
    ensures { PlacedIn offset.0 table.now result }
{
    let len = table[LEN] as usize;
    tables::find(&table[OFFSETS..SLOTS], len, offset.0)
}

// Whether the lease at the place of an offset still runs: 23.
pub fn is_running_at(table: &[u64], place: Place, now: u64) -> bool
    requires { Sound table.now × PlaceWithin LEASES place }
    ensures { RunsAt table.now place now result }
{
    let Place::Found(at) = place else {
        return false;
    };
    let lease = stored::lease_at(table, at);
    now < lease.deadline
}

// Whether no generation is left: 25.
pub fn is_exhausted(table: &[u64]) -> bool
    requires { Sound table.now }
    ensures { result ≡ eqb (view table.now).next_generation MAX }
{
    table[NEXT] == MAX
}

// Whether an offset that has no lease, and belongs at a place, finds no room: 27.
pub fn is_full_at(table: &[u64], place: Place) -> bool
    requires { Sound table.now }
    ensures { FullAt table.now place result }
{
    let Place::Missing(_) = place else {
        return false;
    };
    LEASES <= table[LEN] as usize
}

// Where the lease stands that a token owns: the test that every call with a token begins with (24).
pub fn owned(table: &[u64], token: LeaseToken) -> Option<usize>
    requires { Sound table.now }
    ensures { OwnedIn token.offset.0 token.generation.0 table.now result }
{
    let place = find(table, token.offset);
    let Place::Found(at) = place else {
        return None;
    };
    let lease = stored::lease_at(table, at);
    if lease.generation == token.generation {
        return Some(at);
    }
    None
}

// What a call with a token asks of its lease: how often it was handed out, who claimed it, and where it stands.
pub fn hold_of(table: &[u64], token: LeaseToken) -> Option<Held>
    requires { Sound table.now }
    ensures { Holds token.offset.0 token.generation.0 table.now result }
{
    let at = owned(table, token)?;
    let lease = stored::lease_at(table, at);
    Some(Held {
        deliveries: lease.deliveries,
        worker: lease.worker,
        at,
    })
}

// How often the message of a token was handed out, while the token owns its lease.
pub fn deliveries(table: &[u64], token: LeaseToken) -> Option<u32>
    requires { Sound table.now }
    ensures { attempts_of result ≡ deliveries (view table.now) token.offset.0 token.generation.0 }
{
    let held = hold_of(table, token)?;
    Some(held.deliveries)
}

// Whether a token owns its lease and the lease still runs.
pub fn holds_active(table: &[u64], token: LeaseToken, now: u64) -> bool
    requires { Sound table.now }
    ensures { result ≡ holds_active (view table.now) token.offset.0 token.generation.0 now }
{
    let Some(at) = owned(table, token) else {
        return false;
    };
    let lease = stored::lease_at(table, at);
    now < lease.deadline
}

// The lease of an offset, run out or not.
pub fn lease_of(table: &[u64], offset: Offset) -> Option<Lease>
    requires { Sound table.now }
    ensures { lease_in result ≡ lease_of (view table.now) offset.0 }
{
    let place = find(table, offset);
    let Place::Found(at) = place else {
        return None;
    };
    Some(stored::lease_at(table, at))
}

// Whether a claim of an offset would find no lease that still runs.
pub fn is_claimable(table: &[u64], offset: Offset, now: u64) -> bool
    requires { Sound table.now }
    ensures { result ≡ is_claimable (view table.now) offset.0 now }
{
    let place = find(table, offset);
    !is_running_at(table, place, now)
}

// How often the message at an offset was handed out, if the next claim would hand it out again: its lease has run out.
pub fn pending_redelivery_attempt(table: &[u64], offset: Offset, now: u64) -> Option<u32>
    requires { Sound table.now }
    ensures { attempts_of result ≡ pending_redelivery_attempt (view table.now) offset.0 now }
{
    let lease = lease_of(table, offset)?;
    if now < lease.deadline {
        return None;
    }
    Some(lease.deliveries)
}

// The count that a restart carried over for an offset, until a first lease takes it over.
pub fn carried_count(table: &[u64], offset: Offset) -> Option<u32>
    requires { Sound table.now }
    ensures { attempts_of result ≡ lookup offset.0 (view table.now).carried }
{
    let len = table[CARRIED_LEN] as usize;
    let place = tables::find(&table[CARRIED_OFFSETS..CARRIED_COUNTS], len, offset.0);
    let Place::Found(at) = place else {
        return None;
    };
    Some(table[CARRIED_COUNTS + at] as u32)
}

// How many messages are in flight, their leases run out or not.
pub fn in_flight(table: &[u64]) -> usize
    requires { Sound table.now }
    ensures { result ≡ in_flight (view table.now) }
{
    table[LEN] as usize
}

// How many counts are carried.
pub fn carried(table: &[u64]) -> usize
    requires { Sound table.now }
    ensures { result ≡ length (view table.now).carried }
{
    table[CARRIED_LEN] as usize
}

// What the next grant or nack takes.
pub fn next_generation(table: &[u64]) -> Generation
    requires { Sound table.now }
    ensures { result.0 ≡ (view table.now).next_generation }
{
    Generation(table[NEXT])
}

// How many grants had a count of 2 or more since the last flush.
pub fn redeliveries_since_flush(table: &[u64]) -> u32
    requires { Sound table.now }
    ensures { result ≡ (view table.now).redeliveries }
{
    table[REDELIVERIES] as u32
}

// How long a hand-out lasts.
pub fn config(table: &[u64]) -> LeaseConfig
    requires { Sound table.now }
    ensures { result ≡ (view table.now).config }
{
    stored::config_of(table)
}
