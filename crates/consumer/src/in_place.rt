// The calls on a consumer whose parts lie elsewhere: its numbers come by value and go back beside the answer, its columns are lent and
// changed where they are, so that nothing is copied. The calls on a `Consumer` are these on its own parts. A refusal changes nothing.
// A call is made by a worker, whose rights are tested first.
ghost use Rattle.std.specs.Prelude.{◌≡◌, ◌≤◌, [], ◌∷◌};
ghost use Rattle.types.specs.Limits.{LEASES, CARRIED};
ghost use Rattle.types.specs.Refusal.{done};
ghost use Rattle.types.specs.Refused.{as_is};
ghost use Rattle.cursor.specs.View.{ack_cursor};
ghost use Rattle.cursor.specs.View as cursor;
ghost use Rattle.delivery.specs.Config.{delay_of, LentBackoffs};
ghost use Rattle.lease.specs.Parts.{gathered};
ghost use Rattle.lease.specs.Parts as lease;
ghost use Rattle.consumer.specs.Calls.{claim, ack, nack, progress, commit};
ghost use Rattle.consumer.specs.Questions.{CountOf};
ghost use Rattle.consumer.specs.View.{claim_of, settle_of, nack_of, progress_of, commit_of};
ghost use Rattle.consumer.specs.Parts.{claiming, settling, nacking, progressing, committing, counting, awaiting, AnswersIn, CommitsIn, RepliesIn, ListsIn};

use crate::calls::HandOut;
use crate::rights::{EXTEND, NACK, SETTLE};
use crate::steps;
use hours::Hours;
use lease::LeaseConfig;
use types::lent;
use types::limits::{CARRIED, LEASES, MAX, RANGES, WORKERS};
use types::refusals::Refusal;

// What a claim answers, and the numbers of the table after it.
#[derive(Clone, Copy)]
pub struct ClaimedAt {
    pub answer: Result<HandOut, Refusal>,
    pub len: usize,
    pub carried_len: usize,
    pub next_generation: u64,
    pub redeliveries: u32,
}

// `Consumer::claim` on the parts that it looks at.
pub fn claim_in_place<'a>(
    config: LeaseConfig,
    hours: Hours,
    ceiling: u64,
    max_deliver: u32,
    threshold: u32,
    committed: u64,
    runs: usize,
    len: usize,
    carried_len: usize,
    next_generation: u64,
    redeliveries: u32,
    worker: u64,
    offset: u64,
    now: u64,
    rights: &'a [u8; WORKERS],
    starts: &'a [u64; RANGES],
    ends: &'a [u64; RANGES],
    offsets: &mut [u64; LEASES],
    slots: &mut [u32; LEASES],
    generations: &mut [u64; LEASES],
    attempt_starts: &mut [u64; LEASES],
    deadlines: &mut [u64; LEASES],
    deliveries: &mut [u32; LEASES],
    workers: &mut [u32; LEASES],
    carried_offsets: &mut [u64; CARRIED],
    carried_counts: &mut [u32; CARRIED],
) -> ClaimedAt
    requires { cursor.Whole (ack_cursor committed starts.now ends.now runs) × lease.Whole (gathered config len carried_len next_generation redeliveries offsets.old slots.old generations.old attempt_starts.old deadlines.old deliveries.old workers.old carried_offsets.old carried_counts.old) }
    ensures { AnswersIn (claim_of result.answer)
        (claiming rights.now hours ceiling max_deliver threshold (ack_cursor committed starts.now ends.now runs) (gathered config len carried_len next_generation redeliveries offsets.old slots.old generations.old attempt_starts.old deadlines.old deliveries.old workers.old carried_offsets.old carried_counts.old))
        (claiming rights.now hours ceiling max_deliver threshold (ack_cursor committed starts.now ends.now runs) (gathered config result.len result.carried_len result.next_generation result.redeliveries offsets.new slots.new generations.new attempt_starts.new deadlines.new deliveries.new workers.new carried_offsets.new carried_counts.new))
        (λ s. claim s worker offset now) }
{
    let test = steps::claim_test(
        hours,
        ceiling,
        threshold,
        committed,
        runs,
        len,
        carried_len,
        next_generation,
        redeliveries,
        worker,
        offset,
        now,
        rights,
        starts,
        ends,
        offsets,
        slots,
        deadlines,
        carried_offsets,
        carried_counts,
    );
    let place = match test {
        Ok(place) => place,
        Err(refusal) => {
            return ClaimedAt {
                answer: Err(refusal),
                len,
                carried_len,
                next_generation,
                redeliveries,
            };
        }
    };
    let claimed = lease::in_place::claim_at(
        config,
        place,
        len,
        carried_len,
        next_generation,
        redeliveries,
        worker as u32,
        offset,
        now,
        offsets,
        slots,
        generations,
        attempt_starts,
        deadlines,
        deliveries,
        workers,
        carried_offsets,
        carried_counts,
    );
    ClaimedAt {
        answer: steps::handed_out(max_deliver, claimed.outcome),
        len: claimed.len,
        carried_len: claimed.carried_len,
        next_generation: claimed.next_generation,
        redeliveries: claimed.redeliveries,
    }
}

// What Ack and Term answer, and the numbers of the cursor and of the leases after them.
#[derive(Clone, Copy)]
pub struct SettledAt {
    pub answer: Result<(), Refusal>,
    pub committed: u64,
    pub runs: usize,
    pub len: usize,
}

// `Consumer::ack` and `Consumer::term` on the parts that they look at. The worker and the token are tested first, and the cursor,
// which has to have room, before the lease goes.
pub fn settle_in_place<'a>(
    committed: u64,
    runs: usize,
    len: usize,
    worker: u64,
    offset: u64,
    generation: u64,
    rights: &'a [u8; WORKERS],
    starts: &mut [u64; RANGES],
    ends: &mut [u64; RANGES],
    offsets: &mut [u64; LEASES],
    slots: &mut [u32; LEASES],
    generations: &'a [u64; LEASES],
    deliveries: &'a [u32; LEASES],
    workers: &'a [u32; LEASES],
) -> SettledAt
    requires { cursor.Whole (ack_cursor committed starts.old ends.old runs) × (len ≤ LEASES) }
    ensures { AnswersIn (settle_of result.answer)
        (settling rights.now (ack_cursor committed starts.old ends.old runs) len offsets.old slots.old generations.now deliveries.now workers.now)
        (settling rights.now (ack_cursor result.committed starts.new ends.new result.runs) result.len offsets.new slots.new generations.now deliveries.now workers.now)
        (λ s. ack s worker offset generation) }
{
    let test = steps::token_test(
        len,
        worker,
        SETTLE,
        offset,
        generation,
        rights,
        offsets,
        slots,
        generations,
        deliveries,
        workers,
    );
    let held = match test {
        Ok(held) => held,
        Err(refusal) => {
            return SettledAt {
                answer: Err(refusal),
                committed,
                runs,
                len,
            };
        }
    };
    let noted = cursor::in_place::ack_in_place(committed, starts, ends, runs, offset, RANGES);
    if steps::is_shed(noted.outcome) {
        return SettledAt {
            answer: Err(Refusal::Shed),
            committed: noted.committed,
            runs: noted.runs,
            len,
        };
    }
    let left = lease::in_place::ack_at(held.at, len, offsets, slots);
    SettledAt {
        answer: Ok(()),
        committed: noted.committed,
        runs: noted.runs,
        len: left,
    }
}

// What Nack answers, and the next generation after it.
#[derive(Clone, Copy)]
pub struct NackedAt {
    pub answer: Result<u64, Refusal>,
    pub next_generation: u64,
}

// `Consumer::nack` on the parts that it looks at.
pub fn nack_in_place<'a>(
    config: LeaseConfig,
    hours: Hours,
    ceiling: u64,
    backoff_len: usize,
    len: usize,
    next_generation: u64,
    worker: u64,
    offset: u64,
    generation: u64,
    now: u64,
    delay: Option<u64>,
    rights: &'a [u8; WORKERS],
    backoff_nanos: &'a [u64; 16],
    offsets: &'a [u64; LEASES],
    slots: &'a [u32; LEASES],
    generations: &mut [u64; LEASES],
    deadlines: &mut [u64; LEASES],
    deliveries: &'a [u32; LEASES],
    workers: &'a [u32; LEASES],
) -> NackedAt
    requires { LentBackoffs backoff_nanos.now backoff_len × (len ≤ LEASES) }
    ensures { AnswersIn (nack_of result.answer)
        (nacking rights.now hours ceiling backoff_nanos.now backoff_len config len next_generation offsets.now slots.now generations.old deadlines.old deliveries.now workers.now)
        (nacking rights.now hours ceiling backoff_nanos.now backoff_len config len result.next_generation offsets.now slots.now generations.new deadlines.new deliveries.now workers.now)
        (λ s. nack s worker offset generation now (delay_of delay)) }
{
    let test = steps::token_test(
        len,
        worker,
        NACK,
        offset,
        generation,
        rights,
        offsets,
        slots,
        generations,
        deliveries,
        workers,
    );
    let held = match test {
        Ok(held) => held,
        Err(refusal) => {
            return NackedAt {
                answer: Err(refusal),
                next_generation,
            };
        }
    };
    if next_generation == MAX {
        return NackedAt {
            answer: Err(Refusal::Exhausted),
            next_generation,
        };
    }
    if ceiling <= next_generation {
        return NackedAt {
            answer: Err(Refusal::CheckpointDue),
            next_generation,
        };
    }
    let capped_nanos = delivery::nack_delay(
        &backoff_nanos[..backoff_len],
        held.deliveries,
        delay,
        config.hard_cap_nanos,
    );
    let delay_nanos = steps::delay_in_hours(hours, now, capped_nanos);
    let nacked = lease::in_place::nack_at(
        held.at,
        next_generation,
        now,
        delay_nanos,
        slots,
        generations,
        deadlines,
    );
    NackedAt {
        answer: nacked.outcome,
        next_generation: nacked.next_generation,
    }
}

// `Consumer::progress` on the parts that it looks at.
pub fn progress_in_place<'a>(
    config: LeaseConfig,
    len: usize,
    worker: u64,
    offset: u64,
    generation: u64,
    now: u64,
    rights: &'a [u8; WORKERS],
    offsets: &'a [u64; LEASES],
    slots: &'a [u32; LEASES],
    generations: &'a [u64; LEASES],
    attempt_starts: &'a [u64; LEASES],
    deadlines: &mut [u64; LEASES],
    deliveries: &'a [u32; LEASES],
    workers: &'a [u32; LEASES],
) -> Result<u64, Refusal>
    requires { len ≤ LEASES }
    ensures { AnswersIn (progress_of result)
        (progressing rights.now config len offsets.now slots.now generations.now attempt_starts.now deadlines.old deliveries.now workers.now)
        (progressing rights.now config len offsets.now slots.now generations.now attempt_starts.now deadlines.new deliveries.now workers.now)
        (λ s. progress s worker offset generation now) }
{
    let test = steps::token_test(
        len,
        worker,
        EXTEND,
        offset,
        generation,
        rights,
        offsets,
        slots,
        generations,
        deliveries,
        workers,
    );
    let held = test?;
    lease::in_place::extend_at(config, held.at, now, slots, attempt_starts, deadlines)
}

// What Commit answers, and the numbers of the cursor and of the table after it.
#[derive(Clone, Copy)]
pub struct CommittedAt {
    pub answer: Result<bool, Refusal>,
    pub committed: u64,
    pub runs: usize,
    pub len: usize,
    pub carried_len: usize,
}

// `Consumer::commit` on the parts that it looks at.
pub fn commit_in_place<'a>(
    committed: u64,
    runs: usize,
    len: usize,
    carried_len: usize,
    worker: u64,
    bound: u64,
    rights: &'a [u8; WORKERS],
    starts: &mut [u64; RANGES],
    ends: &mut [u64; RANGES],
    offsets: &mut [u64; LEASES],
    slots: &mut [u32; LEASES],
    carried_offsets: &mut [u64; CARRIED],
    carried_counts: &mut [u32; CARRIED],
) -> CommittedAt
    requires { cursor.Whole (ack_cursor committed starts.old ends.old runs) × (len ≤ LEASES) × (carried_len ≤ CARRIED) }
    ensures { CommitsIn (commit_of result.answer)
        (committing rights.now (ack_cursor committed starts.old ends.old runs) len carried_len offsets.old slots.old carried_offsets.old carried_counts.old)
        (committing rights.now (ack_cursor result.committed starts.new ends.new result.runs) result.len result.carried_len offsets.new slots.new carried_offsets.new carried_counts.new)
        (λ s. commit s worker bound) }
{
    let test = steps::commit_test(committed, worker, bound, rights);
    if !test.unwrap_or(false) {
        return CommittedAt {
            answer: test,
            committed,
            runs,
            len,
            carried_len,
        };
    }
    let moved = cursor::in_place::commit_in_place(committed, starts, ends, runs, bound);
    let released = lease::in_place::release_below_in_place(
        len,
        carried_len,
        bound,
        offsets,
        slots,
        carried_offsets,
        carried_counts,
    );
    CommittedAt {
        answer: Ok(true),
        committed: moved.committed,
        runs: moved.runs,
        len: released.len,
        carried_len: released.carried_len,
    }
}

// How often an offset was handed out, as the next checkpoint stores it: as its lease says, or else its carried count.
pub fn count_in_place<'a>(
    len: usize,
    carried_len: usize,
    offset: u64,
    offsets: &'a [u64; LEASES],
    slots: &'a [u32; LEASES],
    deliveries: &'a [u32; LEASES],
    carried_offsets: &'a [u64; CARRIED],
    carried_counts: &'a [u32; CARRIED],
) -> u32
    requires { (len ≤ LEASES) × (carried_len ≤ CARRIED) }
    ensures { RepliesIn (done (result ∷ [])) (counting len carried_len offsets.now slots.now deliveries.now carried_offsets.now carried_counts.now) (CountOf offset) }
{
    let leased = lease::in_place::count_in_place(len, offset, offsets, slots, deliveries);
    if let Some(count) = leased {
        return count;
    }
    let carried = lease::in_place::carried_in_place(
        carried_len,
        offset,
        carried_offsets,
        carried_counts,
    );
    carried.unwrap_or(0)
}

// The waiting list at a clock, into a lent list from its first place on: the carried offsets, then those whose lease's deadline has
// come, by deadline and then by offset. 20 where they don't fit, and then nothing is changed.
pub fn waiting_in_place<'a>(
    len: usize,
    carried_len: usize,
    now: u64,
    offsets: &'a [u64; LEASES],
    slots: &'a [u32; LEASES],
    deadlines: &'a [u64; LEASES],
    carried_offsets: &'a [u64; CARRIED],
    out: &mut [u64],
) -> Result<usize, Refusal>
    requires { (len ≤ LEASES) × (carried_len ≤ CARRIED) }
    ensures { ListsIn (as_is result) (awaiting len carried_len offsets.now slots.now deadlines.now carried_offsets.now) now out.old out.new }
{
    let list = steps::waiting_list(
        len,
        carried_len,
        now,
        offsets,
        slots,
        deadlines,
        carried_offsets,
    );
    lent::list_numbers(list, out)
}
