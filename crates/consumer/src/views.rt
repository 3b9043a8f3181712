// What a worker and a supervisor are shown of one offset.
ghost use Rattle.std.specs.Prelude.{◌≡◌, ◌≤◌};
ghost use Rattle.types.specs.Limits.{LEASES, CARRIED};
ghost use Rattle.cursor.specs.View.{ack_cursor};
ghost use Rattle.cursor.specs.View as cursor;
ghost use Rattle.types.specs.Keyed.{lookup};
ghost use Rattle.lease.specs.Lookup.{lease_in};
ghost use Rattle.lease.specs.Parts.{HoldsIn, carrying};
ghost use Rattle.consumer.specs.Standing.{unsettled_as, in_full};
ghost use Rattle.consumer.specs.View.{standing_in, view_in};
ghost use Rattle.consumer.specs.Parts.{showing, ShowsIn};

use crate::rights;
use lease::Lease;
use types::Generation;
use types::limits::{CARRIED, LEASES, RANGES, WORKERS};

// How an offset stands at a clock: settled, held by a lease whose deadline hasn't come, or all else.
#[derive(Clone, Copy, Debug, PartialEq, Eq)]
pub enum Standing {
    Settled,
    Held,
    Waiting,
}

// What a supervisor sees of a lease: how often its offset was handed out, and who claimed it under which generation until when.
#[derive(Clone, Copy, Debug, PartialEq, Eq)]
pub struct Holding {
    pub attempts: u32,
    pub generation: Generation,
    pub deadline: u64,
    pub holder: u32,
}

// What is shown of an offset; what a reader isn't shown, or what isn't there, is absent.
#[derive(Clone, Copy, Debug, PartialEq, Eq)]
pub enum View {
    // To a worker, and to a supervisor where the offset is settled.
    Plain(Standing),
    // To a supervisor, of an offset without a lease, which waits.
    Unleased { attempts: u32 },
    // To a supervisor, of an offset with a lease, run out or not.
    Leased { standing: Standing, lease: Holding },
}

// How an unsettled offset stands, by its lease.
pub fn standing_of(lease: Option<Lease>, now: u64) -> Standing
    ensures { standing_in result ≡ unsettled_as (lease_in lease) now }
{
    let Some(lease) = lease else {
        return Standing::Waiting;
    };
    if now < lease.deadline {
        return Standing::Held;
    }
    Standing::Waiting
}

// What a worker is shown of an offset, by the parts of the consumer that this looks at.
pub fn view_in_place<'a>(
    committed: u64,
    runs: usize,
    len: usize,
    carried_len: usize,
    worker: u64,
    offset: u64,
    now: u64,
    rights: &'a [u8; WORKERS],
    starts: &'a [u64; RANGES],
    ends: &'a [u64; RANGES],
    offsets: &'a [u64; LEASES],
    slots: &'a [u32; LEASES],
    generations: &'a [u64; LEASES],
    attempt_starts: &'a [u64; LEASES],
    deadlines: &'a [u64; LEASES],
    deliveries: &'a [u32; LEASES],
    workers: &'a [u32; LEASES],
    carried_offsets: &'a [u64; CARRIED],
    carried_counts: &'a [u32; CARRIED],
) -> View
    requires { cursor.Whole (ack_cursor committed starts.now ends.now runs) × (len ≤ LEASES) × (carried_len ≤ CARRIED) }
    ensures { ShowsIn result (showing rights.now (ack_cursor committed starts.now ends.now runs) len carried_len offsets.now slots.now generations.now attempt_starts.now deadlines.now deliveries.now workers.now carried_offsets.now carried_counts.now) worker offset now }
{
    if cursor::in_place::is_acked_in_place(committed, starts, ends, runs, offset) {
        return View::Plain(Standing::Settled);
    }
    let lease = lease::in_place::lease_in_place(
        len,
        offset,
        offsets,
        slots,
        generations,
        attempt_starts,
        deadlines,
        deliveries,
        workers,
    );
    if rights::is_supervisor(rights, worker) {
        return in_full(
            carried_len,
            offset,
            now,
            lease,
            carried_offsets,
            carried_counts,
        );
    }
    View::Plain(standing_of(lease, now))
}

// What a supervisor is shown of an unsettled offset with this lease.
fn in_full<'a>(
    carried_len: usize,
    offset: u64,
    now: u64,
    lease: Option<Lease>,
    carried_offsets: &'a [u64; CARRIED],
    carried_counts: &'a [u32; CARRIED],
) -> View
    requires { carried_len ≤ CARRIED }
    ensures { HoldsIn (carrying carried_len carried_offsets.now carried_counts.now) (λ t. view_in result ≡ in_full (lease_in lease) (lookup offset t.carried) now) }
{
    let standing = standing_of(lease, now);
    if let Some(lease) = lease {
        let generation = lease.generation;
        return View::Leased {
            standing,
            lease: Holding {
                attempts: lease.deliveries,
                generation,
                deadline: lease.deadline,
                holder: lease.worker,
            },
        };
    }
    let carried = lease::in_place::carried_in_place(
        carried_len,
        offset,
        carried_offsets,
        carried_counts,
    );
    View::Unleased {
        attempts: carried.unwrap_or(0),
    }
}
