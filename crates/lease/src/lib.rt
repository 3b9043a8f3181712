// The leases of one work group over a log: who holds which message until when, under which generation, and how often it
// was handed out. A message in flight is handed out again once its lease's deadline has come; each hand-out takes a new
// generation, so that whoever held the message before is fenced off. The caller brings the time, in nanoseconds of any
// clock: it may stand still or run backwards.
#![tactic(auto)]

ghost use Rattle.std.specs.Prelude.{◌≡◌};
ghost use Rattle.lease.specs.Config.{nanos, from_millis, default_config};
ghost use Rattle.lease.specs.State.{Sound, view, starting_at};
ghost use Rattle.lease.specs.Operations.{claim, ack, extend, nack, cap_from, deadline_from};
ghost use Rattle.lease.specs.Rest.{attempts_flushed, release_below, reseal_from_to, defer_redelivery, shift_deadlines, in_flight, is_claimable, deliveries, holds_active, pending_redelivery_attempt};
ghost use Rattle.lease.specs.Answers.{claim_of, ack_of, extend_of, nack_of, attempts_of, Answers, Tries, Becomes};

use tables::Place;
use types::limits::{CARRIED, LEASES};
use types::refusals::Refusal;
use types::{Generation, Offset};

pub mod in_place;
pub mod in_words;
pub mod layout;
mod lent;
pub mod listings;
pub mod lookup;
pub mod reads;
mod stored;

// How long a hand-out lasts, in nanoseconds. A hard cap below the visibility shortens every lease to the cap; where one
// of the two is 0, a lease runs out the moment it is granted.
#[repr(C)]
#[derive(Clone, Copy, Debug, PartialEq, Eq)]
pub struct LeaseConfig {
    // How long a message that was handed out stays in flight.
    pub visibility_nanos: u64,
    // How long it may stay so in all, from the start of the attempt, however often its holder extends it.
    pub hard_cap_nanos: u64,
}

impl LeaseConfig {
    // 30 seconds.
    pub const DEFAULT_VISIBILITY_MS: u64 = 30000;
    // 5 minutes.
    pub const DEFAULT_HARD_CAP_MS: u64 = 300000;

    // A configuration from milliseconds, each at most the largest number of nanoseconds.
    pub fn from_millis(visibility_ms: u64, hard_cap_ms: u64) -> LeaseConfig
        ensures { result ≡ from_millis visibility_ms hard_cap_ms }
    {
        LeaseConfig {
            visibility_nanos: to_nanos(visibility_ms),
            hard_cap_nanos: to_nanos(hard_cap_ms),
        }
    }

    // The default visibility and hard cap.
    pub fn default() -> LeaseConfig
        ensures { result ≡ default_config }
    {
        LeaseConfig::from_millis(
            LeaseConfig::DEFAULT_VISIBILITY_MS,
            LeaseConfig::DEFAULT_HARD_CAP_MS,
        )
    }

    // When an attempt that began at `start` ends for good.
    fn cap(self, start: u64) -> u64
        ensures { result ≡ cap_from self start }
    {
        start.saturating_add(self.hard_cap_nanos)
    }

    // One visibility window from now, within the cap of an attempt that began at `start`.
    fn deadline(self, start: u64, now: u64) -> u64
        ensures { result ≡ deadline_from self start now }
    {
        let window = now.saturating_add(self.visibility_nanos);
        window.min(self.cap(start))
    }
}

// Names one hand-out of a message: an ack, an extension or a nack carries it, and works only while the lease of the
// offset has this generation.
#[repr(C)]
#[derive(Clone, Copy, Debug, PartialEq, Eq)]
pub struct LeaseToken {
    pub offset: Offset,
    pub generation: Generation,
}

#[repr(C)]
#[derive(Clone, Copy, Debug, PartialEq, Eq)]
pub struct Lease {
    pub generation: Generation,
    // When the current attempt began: the hard cap runs from here, anew with each attempt.
    pub attempt_start: u64,
    pub deadline: u64,
    pub deliveries: u32,
    // The number of the worker who claimed it, which the module hands out and tests nowhere.
    pub worker: u32,
}

// What a claim hands out: the token, and how often its message was handed out so far, this time counted.
#[derive(Clone, Copy, Debug, PartialEq, Eq)]
pub struct Grant {
    pub token: LeaseToken,
    pub deliveries: u32,
}

// At most 64 leases and 128 carried attempt counts, each sorted by offset: the offsets in one array, and at the same places of another
// the counts, or the slots of the leases.
#[repr(C)]
#[derive(Clone, Copy)]
pub struct LeaseTable {
    pub config: LeaseConfig,
    pub offsets: [u64; LEASES],
    // Where the columns below have the lease of each offset, and behind those in use the slots that are free. A lease stays at its slot
    // while offsets come and go, so that a claim and an ack move these two arrays alone.
    pub slots: [u32; LEASES],
    // The leases, in a column for each of their numbers.
    pub generations: [u64; LEASES],
    pub attempt_starts: [u64; LEASES],
    pub deadlines: [u64; LEASES],
    pub deliveries: [u32; LEASES],
    pub workers: [u32; LEASES],
    pub len: usize,
    // The counts that a restart carried over: an offset's first lease takes its count over and goes on from it.
    pub carried_offsets: [u64; CARRIED],
    pub carried_counts: [u32; CARRIED],
    pub carried_len: usize,
    // What the next grant or nack takes.
    pub next_generation: Generation,
    // Grants with a count of 2 or more since the counts were last made durable.
    pub redeliveries_since_flush: u32,
}

// What a call answers, and the table after it, which comes first: behind a few bytes of an answer it would be copied once more.
#[derive(Clone, Copy)]
pub struct Answered<T> {
    pub table: LeaseTable,
    pub outcome: T,
}

// A call that changes a table lends copies of the columns that it reads and changes: with a reference into the table itself the compiler
// copies all of it once more. `shift_deadlines` alone, which changes two columns whole, lends these.
impl LeaseTable {
    // An empty table. Its generations begin at 0, so by itself it fences off no token from before a restart: whoever keeps leases over
    // restarts begins above every generation given before (`starting_at`), as the consumer does.
    pub fn new(config: LeaseConfig) -> LeaseTable
        ensures { Becomes result (starting_at config 0) }
    {
        LeaseTable::starting_at(config, Generation(0))
    }

    // An empty table of the default configuration, which begins at generation 0 as `new` does.
    pub fn default() -> LeaseTable
        ensures { Becomes result (starting_at default_config 0) }
    {
        LeaseTable::new(LeaseConfig::default())
    }

    // An empty table whose first grant takes the given generation.
    pub fn starting_at(config: LeaseConfig, generation: Generation) -> LeaseTable
        ensures { Becomes result (starting_at config generation.0) }
    {
        LeaseTable {
            config,
            offsets: [0; LEASES],
            slots: tables::all_slots(),
            generations: [0; LEASES],
            attempt_starts: [0; LEASES],
            deadlines: [0; LEASES],
            deliveries: [0; LEASES],
            workers: [0; LEASES],
            len: 0,
            carried_offsets: [0; CARRIED],
            carried_counts: [0; CARRIED],
            carried_len: 0,
            next_generation: generation,
            redeliveries_since_flush: 0,
        }
    }

    // How many grants had a count of 2 or more since the last flush.
    pub fn redeliveries_since_flush(self) -> u32
        ensures { result ≡ (view self).redeliveries }
    {
        self.redeliveries_since_flush
    }

    // The attempt counts are durable: the counter starts anew.
    pub fn note_attempts_flushed(mut self) -> LeaseTable
        requires { Sound self }
        ensures { Becomes result (attempts_flushed (view self)) }
    {
        self.redeliveries_since_flush = redeliveries::after_flush(self.redeliveries_since_flush);
        self
    }

    // How many messages are in flight, their leases run out or not.
    pub fn in_flight(self) -> usize
        requires { Sound self }
        ensures { result ≡ in_flight (view self) }
    {
        self.len
    }

    // Releases every lease and every carried count below an offset: all that lies there is done.
    pub fn release_below(mut self, up_to: Offset) -> LeaseTable
        requires { Sound self }
        ensures { Becomes result (release_below (view self) up_to.0) }
    {
        let mut offsets = self.offsets;
        let mut slots = self.slots;
        let mut carried_offsets = self.carried_offsets;
        let mut carried_counts = self.carried_counts;
        let left = in_place::release_below_in_place(
            self.len,
            self.carried_len,
            up_to.0,
            &mut offsets,
            &mut slots,
            &mut carried_offsets,
            &mut carried_counts,
        );
        self.offsets = offsets;
        self.slots = slots;
        self.len = left.len;
        self.carried_offsets = carried_offsets;
        self.carried_counts = carried_counts;
        self.carried_len = left.carried_len;
        self
    }

    // Claims an offset for delivery to a worker. One with no lease, or with a lease that has run out, is granted: the attempt
    // begins now, under the next generation, which fences off whoever held the offset before. The count goes on from the lease's,
    // or from the carried one, which the new lease takes over.
    pub fn claim(
        mut self,
        worker: u32,
        offset: Offset,
        now: u64,
    ) -> Answered<Result<Grant, Refusal>>
        requires { Sound self }
        ensures { Answers (claim_of result.outcome) self result.table (claim (view self) worker offset.0 now) }
    {
        let mut offsets = self.offsets;
        let mut slots = self.slots;
        let mut generations = self.generations;
        let mut attempt_starts = self.attempt_starts;
        let mut deadlines = self.deadlines;
        let mut deliveries = self.deliveries;
        let mut workers = self.workers;
        let mut carried_offsets = self.carried_offsets;
        let mut carried_counts = self.carried_counts;
        let place = tables::find(&offsets, self.len, offset.0);
        let claimed = in_place::claim_at(
            self.config,
            place,
            self.len,
            self.carried_len,
            self.next_generation.0,
            self.redeliveries_since_flush,
            worker,
            offset.0,
            now,
            &mut offsets,
            &mut slots,
            &mut generations,
            &mut attempt_starts,
            &mut deadlines,
            &mut deliveries,
            &mut workers,
            &mut carried_offsets,
            &mut carried_counts,
        );
        self.offsets = offsets;
        self.slots = slots;
        self.generations = generations;
        self.attempt_starts = attempt_starts;
        self.deadlines = deadlines;
        self.deliveries = deliveries;
        self.workers = workers;
        self.len = claimed.len;
        self.carried_offsets = carried_offsets;
        self.carried_counts = carried_counts;
        self.carried_len = claimed.carried_len;
        self.next_generation.0 = claimed.next_generation;
        self.redeliveries_since_flush = claimed.redeliveries;
        let outcome = claimed.outcome;
        Answered {
            table: self,
            outcome,
        }
    }

    // Puts the lease of an offset under another generation, if it still has the one that the caller claimed it under: whoever
    // claimed it since keeps the fence. Messages that are handed out as one batch come under one generation so; an offset and a
    // generation together still name one hand-out. The new generation is to be one that was given before, below the next: then a
    // later claim of the offset takes another, and fences the batch's token off.
    pub fn reseal_from_to(
        mut self,
        offset: Offset,
        from: Generation,
        generation: Generation,
    ) -> Answered<bool>
        requires { Sound self }
        ensures { Tries result.outcome self result.table (reseal_from_to (view self) offset.0 from.0 generation.0) }
    {
        let offsets = self.offsets;
        let slots = self.slots;
        let mut generations = self.generations;
        let Some(at) = in_place::owned(self.len, offset.0, from.0, &offsets, &slots, &generations)
        else {
            return Answered {
                table: self,
                outcome: false,
            };
        };
        let slot = in_place::slot_at(&slots, at);
        generations[slot] = generation.0;
        self.generations = generations;
        Answered {
            table: self,
            outcome: true,
        }
    }

    // Whether a claim of the offset would find no lease that still runs.
    pub fn is_claimable(self, offset: Offset, now: u64) -> bool
        requires { Sound self }
        ensures { result ≡ is_claimable (view self) offset.0 now }
    {
        let place = tables::find(&self.offsets, self.len, offset.0);
        in_place::is_claimable_at(place, now, &self.slots, &self.deadlines)
    }

    // Acks the lease that the token owns: the message is in flight no longer.
    pub fn ack(mut self, token: LeaseToken) -> Answered<Result<(), Refusal>>
        requires { Sound self }
        ensures { Answers (ack_of result.outcome) self result.table (ack (view self) token.offset.0 token.generation.0) }
    {
        let mut offsets = self.offsets;
        let mut slots = self.slots;
        let generations = self.generations;
        let Some(at) = in_place::owned(
            self.len,
            token.offset.0,
            token.generation.0,
            &offsets,
            &slots,
            &generations,
        ) else {
            return Answered {
                table: self,
                outcome: Err(Refusal::Fenced),
            };
        };
        let len = in_place::ack_at(at, self.len, &mut offsets, &mut slots);
        self.offsets = offsets;
        self.slots = slots;
        self.len = len;
        Answered {
            table: self,
            outcome: Ok(()),
        }
    }

    // Extends the lease that the token owns by one visibility window from now, within the hard cap of its attempt.
    pub fn extend(mut self, token: LeaseToken, now: u64) -> Answered<Result<u64, Refusal>>
        requires { Sound self }
        ensures { Answers (extend_of result.outcome) self result.table (extend (view self) token.offset.0 token.generation.0 now) }
    {
        let offsets = self.offsets;
        let slots = self.slots;
        let generations = self.generations;
        let Some(at) = in_place::owned(
            self.len,
            token.offset.0,
            token.generation.0,
            &offsets,
            &slots,
            &generations,
        ) else {
            return Answered {
                table: self,
                outcome: Err(Refusal::Fenced),
            };
        };
        let attempt_starts = self.attempt_starts;
        let mut deadlines = self.deadlines;
        let outcome = in_place::extend_at(
            self.config,
            at,
            now,
            &slots,
            &attempt_starts,
            &mut deadlines,
        );
        self.deadlines = deadlines;
        Answered {
            table: self,
            outcome,
        }
    }

    // How often the message of the token was handed out, while the token owns its lease.
    pub fn deliveries(self, token: LeaseToken) -> Option<u32>
        requires { Sound self }
        ensures { attempts_of result ≡ deliveries (view self) token.offset.0 token.generation.0 }
    {
        let held = in_place::hold_in_place(
            self.len,
            token.offset.0,
            token.generation.0,
            &self.offsets,
            &self.slots,
            &self.generations,
            &self.deliveries,
            &self.workers,
        )?;
        Some(held.deliveries)
    }

    // Whether the token owns its lease and the lease still runs.
    pub fn holds_active(self, token: LeaseToken, now: u64) -> bool
        requires { Sound self }
        ensures { result ≡ holds_active (view self) token.offset.0 token.generation.0 now }
    {
        let Some(at) = in_place::owned(
            self.len,
            token.offset.0,
            token.generation.0,
            &self.offsets,
            &self.slots,
            &self.generations,
        ) else {
            return false;
        };
        let slot = in_place::slot_at(&self.slots, at);
        now < self.deadlines[slot]
    }

    // Gives the lease that the token owns up: the message can be claimed again after the delay, which no cap bounds, since it belongs
    // to the next attempt. A new generation fences the token off, so that no ack of it can settle what it gave up, and the count
    // stays for the next claim.
    pub fn nack(
        mut self,
        token: LeaseToken,
        now: u64,
        delay_nanos: u64,
    ) -> Answered<Result<u64, Refusal>>
        requires { Sound self }
        ensures { Answers (nack_of result.outcome) self result.table (nack (view self) token.offset.0 token.generation.0 now delay_nanos) }
    {
        let offsets = self.offsets;
        let slots = self.slots;
        let mut generations = self.generations;
        let Some(at) = in_place::owned(
            self.len,
            token.offset.0,
            token.generation.0,
            &offsets,
            &slots,
            &generations,
        ) else {
            return Answered {
                table: self,
                outcome: Err(Refusal::Fenced),
            };
        };
        let mut deadlines = self.deadlines;
        let done = in_place::nack_at(
            at,
            self.next_generation.0,
            now,
            delay_nanos,
            &slots,
            &mut generations,
            &mut deadlines,
        );
        self.generations = generations;
        self.deadlines = deadlines;
        self.next_generation.0 = done.next_generation;
        let outcome = done.outcome;
        Answered {
            table: self,
            outcome,
        }
    }

    // How often the message at an offset was handed out, if the next claim would hand it out again: its lease has run out.
    pub fn pending_redelivery_attempt(self, offset: Offset, now: u64) -> Option<u32>
        requires { Sound self }
        ensures { attempts_of result ≡ pending_redelivery_attempt (view self) offset.0 now }
    {
        let lease = self.lease_of(offset)?;
        if now < lease.deadline {
            return None;
        }
        Some(lease.deliveries)
    }

    // Puts a lease that has run out off by a delay, which no cap bounds; generation and count stay, since nobody is to be fenced off
    // and nothing was handed out.
    pub fn defer_redelivery(mut self, offset: Offset, now: u64, delay_nanos: u64) -> Answered<bool>
        requires { Sound self }
        ensures { Tries result.outcome self result.table (defer_redelivery (view self) offset.0 now delay_nanos) }
    {
        let offsets = self.offsets;
        let slots = self.slots;
        let place = tables::find(&offsets, self.len, offset.0);
        let Place::Found(at) = place else {
            return Answered {
                table: self,
                outcome: false,
            };
        };
        let slot = in_place::slot_at(&slots, at);
        let mut deadlines = self.deadlines;
        if now < deadlines[slot] {
            return Answered {
                table: self,
                outcome: false,
            };
        }
        deadlines[slot] = now.saturating_add(delay_nanos);
        self.deadlines = deadlines;
        Answered {
            table: self,
            outcome: true,
        }
    }

    // Moves every lease's clock forward, its deadline and the start of its attempt: a pause that costs no lease its time.
    pub fn shift_deadlines(mut self, delta: u64) -> LeaseTable
        requires { Sound self }
        ensures { Becomes result (shift_deadlines (view self) delta) }
    {
        stored::shift(&mut self.attempt_starts, delta);
        stored::shift(&mut self.deadlines, delta);
        self
    }
}

// Milliseconds in nanoseconds, at most the largest number.
fn to_nanos(ms: u64) -> u64
    ensures { result ≡ nanos ms }
{
    ms.saturating_mul(1000000)
}
