// The calls on a consumer's state in place: its numbers come by value and go back beside the answer, its columns are lent and changed
// where they lie, so that a machine in another's memory is not copied.
ghost use Rattle.std.specs.Prelude.{List, ◌≡◌, ℕ, ◌≤◌, ◌/◌, leb, length};
ghost use Rattle.types.specs.Limits.{LEASES, CARRIED};
ghost use Rattle.cursor.specs.View.{ack_cursor};
ghost use Rattle.cursor.specs.View as cursor;
ghost use Rattle.delivery.specs.Config.{delay_of, LentBackoffs};
ghost use Rattle.lease.specs.Parts.{gathered};
ghost use Rattle.lease.specs.Parts as lease;
ghost use Rattle.lease.specs.Lookup.{lease_in, lease_values};
ghost use Rattle.consumer.specs.Questions as questions;
ghost use Rattle.consumer.specs.Calls as consumers;
ghost use Rattle.consumer.specs.View.{view, Answers, settle_of};
ghost use Rattle.consumer.specs.Parts.{Whole};
ghost use Rattle.consumer.specs.declared.Consumer.{Consumer};
ghost use Rattle.machine.specs.Calls.{claim, nack, progress, commit};
ghost use Rattle.machine.specs.Answers.{question_of, ask_of, lease_told};
ghost use Rattle.machine.specs.View.{AskedIs, LookedIs};
ghost use Rattle.machine.specs.Parts.{consumer_of, fixed_of, left, Ready};

use crate::calls::{Ask, AskAnswer, LeaseFigures, Question, Reply};
use consumer::queries::Due;
use consumer::rights::LOOK;
use consumer::{halves, rights};
use hours::Hours;
use lease::{Lease, LeaseConfig, LeaseToken};
use types::Offset;
use types::limits::{CARRIED, LEASES, RANGES, WORKERS};
use types::refusals::Refusal;

// What of a consumer its calls look at and leave.
#[derive(Clone, Copy)]
pub struct Fixed {
    pub config: LeaseConfig,
    pub hours: Hours,
    pub ceiling: u64,
    pub block: usize,
    pub area_len: usize,
    pub max_deliver: u32,
    pub backoff_len: usize,
    pub threshold: u32,
}

// The numbers of a consumer that its calls change.
#[derive(Clone, Copy)]
pub struct Figures {
    pub committed: u64,
    pub runs: usize,
    pub len: usize,
    pub carried_len: usize,
    pub next_generation: u64,
    pub redeliveries: u32,
}

// What a call answers, and the numbers after it.
#[derive(Clone, Copy)]
pub struct AskedAt {
    pub answer: AskAnswer,
    pub figures: Figures,
}

// What Ack and Term answer, and the numbers after it.
#[derive(Clone, Copy)]
struct SettledAt {
    answer: Result<(), Refusal>,
    figures: Figures,
}

// Claim.
fn ask_claim<'a>(
    worker: u64,
    fixed: Fixed,
    figures: Figures,
    offset: Offset,
    now: u64,
    starts: &'a [u64; RANGES],
    ends: &'a [u64; RANGES],
    offsets: &mut [u64; LEASES],
    slots: &mut [u32; LEASES],
    generations: &mut [u64; LEASES],
    attempt_starts: &mut [u64; LEASES],
    deadlines: &mut [u64; LEASES],
    deliveries: &mut [u32; LEASES],
    workers: &mut [u32; LEASES],
    carried_offsets: &mut [u64; CARRIED],
    carried_counts: &mut [u32; CARRIED],
    rights: &'a [u8; WORKERS],
) -> AskedAt
    requires { cursor.Whole (ack_cursor figures.committed starts.now ends.now figures.runs) × lease.Whole (gathered fixed.config figures.len figures.carried_len figures.next_generation figures.redeliveries offsets.old slots.old generations.old attempt_starts.old deadlines.old deliveries.old workers.old carried_offsets.old carried_counts.old) }
    ensures { (x : Consumer) (out : List ℕ) → Whole (consumer_of fixed figures starts.now ends.now offsets.old slots.old generations.old attempt_starts.old deadlines.old deliveries.old workers.old carried_offsets.old carried_counts.old x.settings.delivery.backoff_nanos rights.now x) → AskedIs (consumer_of fixed figures starts.now ends.now offsets.old slots.old generations.old attempt_starts.old deadlines.old deliveries.old workers.old carried_offsets.old carried_counts.old x.settings.delivery.backoff_nanos rights.now x) worker (claim offset.0 now) out (left result.answer (consumer_of fixed result.figures starts.now ends.now offsets.new slots.new generations.new attempt_starts.new deadlines.new deliveries.new workers.new carried_offsets.new carried_counts.new x.settings.delivery.backoff_nanos rights.now x)) out }
{
    let done = consumer::in_place::claim_in_place(
        fixed.config,
        fixed.hours,
        fixed.ceiling,
        fixed.max_deliver,
        fixed.threshold,
        figures.committed,
        figures.runs,
        figures.len,
        figures.carried_len,
        figures.next_generation,
        figures.redeliveries,
        worker,
        offset.0,
        now,
        rights,
        starts,
        ends,
        offsets,
        slots,
        generations,
        attempt_starts,
        deadlines,
        deliveries,
        workers,
        carried_offsets,
        carried_counts,
    );
    let answer = done.answer;
    AskedAt {
        answer: AskAnswer::Claimed(answer),
        figures: Figures {
            committed: figures.committed,
            runs: figures.runs,
            len: done.len,
            carried_len: done.carried_len,
            next_generation: done.next_generation,
            redeliveries: done.redeliveries,
        },
    }
}

// Ack and Term: the offset is settled.
fn settle<'a>(
    worker: u64,
    figures: Figures,
    token: LeaseToken,
    starts: &mut [u64; RANGES],
    ends: &mut [u64; RANGES],
    offsets: &mut [u64; LEASES],
    slots: &mut [u32; LEASES],
    generations: &'a [u64; LEASES],
    deliveries: &'a [u32; LEASES],
    workers: &'a [u32; LEASES],
    rights: &'a [u8; WORKERS],
) -> SettledAt
    requires { cursor.Whole (ack_cursor figures.committed starts.old ends.old figures.runs) × (figures.len ≤ LEASES) }
    ensures { (x : Consumer) → Whole (consumer_of (fixed_of x) figures starts.old ends.old offsets.old slots.old generations.now x.table.attempt_starts x.table.deadlines deliveries.now workers.now x.table.carried_offsets x.table.carried_counts x.settings.delivery.backoff_nanos rights.now x) → Answers (settle_of result.answer) (consumer_of (fixed_of x) figures starts.old ends.old offsets.old slots.old generations.now x.table.attempt_starts x.table.deadlines deliveries.now workers.now x.table.carried_offsets x.table.carried_counts x.settings.delivery.backoff_nanos rights.now x) (consumer_of (fixed_of x) result.figures starts.new ends.new offsets.new slots.new generations.now x.table.attempt_starts x.table.deadlines deliveries.now workers.now x.table.carried_offsets x.table.carried_counts x.settings.delivery.backoff_nanos rights.now x) (consumers.ack (view (consumer_of (fixed_of x) figures starts.old ends.old offsets.old slots.old generations.now x.table.attempt_starts x.table.deadlines deliveries.now workers.now x.table.carried_offsets x.table.carried_counts x.settings.delivery.backoff_nanos rights.now x)) worker token.offset.0 token.generation.0) }
{
    let done = consumer::in_place::settle_in_place(
        figures.committed,
        figures.runs,
        figures.len,
        worker,
        token.offset.0,
        token.generation.0,
        rights,
        starts,
        ends,
        offsets,
        slots,
        generations,
        deliveries,
        workers,
    );
    let answer = done.answer;
    SettledAt {
        answer,
        figures: Figures {
            committed: done.committed,
            runs: done.runs,
            len: done.len,
            carried_len: figures.carried_len,
            next_generation: figures.next_generation,
            redeliveries: figures.redeliveries,
        },
    }
}

// Nack.
fn ask_nack<'a>(
    worker: u64,
    fixed: Fixed,
    figures: Figures,
    token: LeaseToken,
    now: u64,
    delay: Option<u64>,
    offsets: &'a [u64; LEASES],
    slots: &'a [u32; LEASES],
    generations: &mut [u64; LEASES],
    deadlines: &mut [u64; LEASES],
    deliveries: &'a [u32; LEASES],
    workers: &'a [u32; LEASES],
    backoff_nanos: &'a [u64; 16],
    rights: &'a [u8; WORKERS],
) -> AskedAt
    requires { LentBackoffs backoff_nanos.now fixed.backoff_len × (figures.len ≤ LEASES) }
    ensures { (x : Consumer) (out : List ℕ) → Whole (consumer_of fixed figures x.cursor.starts x.cursor.ends offsets.now slots.now generations.old x.table.attempt_starts deadlines.old deliveries.now workers.now x.table.carried_offsets x.table.carried_counts backoff_nanos.now rights.now x) → AskedIs (consumer_of fixed figures x.cursor.starts x.cursor.ends offsets.now slots.now generations.old x.table.attempt_starts deadlines.old deliveries.now workers.now x.table.carried_offsets x.table.carried_counts backoff_nanos.now rights.now x) worker (nack token.offset.0 token.generation.0 now (delay_of delay)) out (left result.answer (consumer_of fixed result.figures x.cursor.starts x.cursor.ends offsets.now slots.now generations.new x.table.attempt_starts deadlines.new deliveries.now workers.now x.table.carried_offsets x.table.carried_counts backoff_nanos.now rights.now x)) out }
{
    let done = consumer::in_place::nack_in_place(
        fixed.config,
        fixed.hours,
        fixed.ceiling,
        fixed.backoff_len,
        figures.len,
        figures.next_generation,
        worker,
        token.offset.0,
        token.generation.0,
        now,
        delay,
        rights,
        backoff_nanos,
        offsets,
        slots,
        generations,
        deadlines,
        deliveries,
        workers,
    );
    let answer = done.answer;
    AskedAt {
        answer: AskAnswer::Nacked(answer),
        figures: Figures {
            committed: figures.committed,
            runs: figures.runs,
            len: figures.len,
            carried_len: figures.carried_len,
            next_generation: done.next_generation,
            redeliveries: figures.redeliveries,
        },
    }
}

// Progress.
fn ask_progress<'a>(
    worker: u64,
    fixed: Fixed,
    figures: Figures,
    token: LeaseToken,
    now: u64,
    offsets: &'a [u64; LEASES],
    slots: &'a [u32; LEASES],
    generations: &'a [u64; LEASES],
    attempt_starts: &'a [u64; LEASES],
    deadlines: &mut [u64; LEASES],
    deliveries: &'a [u32; LEASES],
    workers: &'a [u32; LEASES],
    rights: &'a [u8; WORKERS],
) -> AskedAt
    requires { figures.len ≤ LEASES }
    ensures { (x : Consumer) (out : List ℕ) → Whole (consumer_of fixed figures x.cursor.starts x.cursor.ends offsets.now slots.now generations.now attempt_starts.now deadlines.old deliveries.now workers.now x.table.carried_offsets x.table.carried_counts x.settings.delivery.backoff_nanos rights.now x) → AskedIs (consumer_of fixed figures x.cursor.starts x.cursor.ends offsets.now slots.now generations.now attempt_starts.now deadlines.old deliveries.now workers.now x.table.carried_offsets x.table.carried_counts x.settings.delivery.backoff_nanos rights.now x) worker (progress token.offset.0 token.generation.0 now) out (left result.answer (consumer_of fixed result.figures x.cursor.starts x.cursor.ends offsets.now slots.now generations.now attempt_starts.now deadlines.new deliveries.now workers.now x.table.carried_offsets x.table.carried_counts x.settings.delivery.backoff_nanos rights.now x)) out }
{
    let answer = consumer::in_place::progress_in_place(
        fixed.config,
        figures.len,
        worker,
        token.offset.0,
        token.generation.0,
        now,
        rights,
        offsets,
        slots,
        generations,
        attempt_starts,
        deadlines,
        deliveries,
        workers,
    );
    AskedAt {
        answer: AskAnswer::Progressed(answer),
        figures,
    }
}

// Commit.
fn ask_commit<'a>(
    worker: u64,
    figures: Figures,
    bound: Offset,
    starts: &mut [u64; RANGES],
    ends: &mut [u64; RANGES],
    offsets: &mut [u64; LEASES],
    slots: &mut [u32; LEASES],
    carried_offsets: &mut [u64; CARRIED],
    carried_counts: &mut [u32; CARRIED],
    rights: &'a [u8; WORKERS],
) -> AskedAt
    requires { cursor.Whole (ack_cursor figures.committed starts.old ends.old figures.runs) × (figures.len ≤ LEASES) × (figures.carried_len ≤ CARRIED) }
    ensures { (x : Consumer) (out : List ℕ) → Whole (consumer_of (fixed_of x) figures starts.old ends.old offsets.old slots.old x.table.generations x.table.attempt_starts x.table.deadlines x.table.deliveries x.table.workers carried_offsets.old carried_counts.old x.settings.delivery.backoff_nanos rights.now x) → AskedIs (consumer_of (fixed_of x) figures starts.old ends.old offsets.old slots.old x.table.generations x.table.attempt_starts x.table.deadlines x.table.deliveries x.table.workers carried_offsets.old carried_counts.old x.settings.delivery.backoff_nanos rights.now x) worker (commit bound.0) out (left result.answer (consumer_of (fixed_of x) result.figures starts.new ends.new offsets.new slots.new x.table.generations x.table.attempt_starts x.table.deadlines x.table.deliveries x.table.workers carried_offsets.new carried_counts.new x.settings.delivery.backoff_nanos rights.now x)) out }
{
    let done = consumer::in_place::commit_in_place(
        figures.committed,
        figures.runs,
        figures.len,
        figures.carried_len,
        worker,
        bound.0,
        rights,
        starts,
        ends,
        offsets,
        slots,
        carried_offsets,
        carried_counts,
    );
    let answer = done.answer;
    AskedAt {
        answer: AskAnswer::Committed(answer),
        figures: Figures {
            committed: done.committed,
            runs: done.runs,
            len: done.len,
            carried_len: done.carried_len,
            next_generation: figures.next_generation,
            redeliveries: figures.redeliveries,
        },
    }
}

// Answers a worker's question that it may ask; a list goes into `out`.
fn reply<'a>(
    worker: u64,
    fixed: Fixed,
    figures: Figures,
    question: Question,
    starts: &'a [u64; RANGES],
    ends: &'a [u64; RANGES],
    offsets: &'a [u64; LEASES],
    slots: &'a [u32; LEASES],
    generations: &'a [u64; LEASES],
    attempt_starts: &'a [u64; LEASES],
    deadlines: &'a [u64; LEASES],
    deliveries: &'a [u32; LEASES],
    workers: &'a [u32; LEASES],
    carried_offsets: &'a [u64; CARRIED],
    carried_counts: &'a [u32; CARRIED],
    rights: &'a [u8; WORKERS],
    out: &mut [u64],
) -> Result<Reply, Refusal>
    requires { cursor.Whole (ack_cursor figures.committed starts.now ends.now figures.runs) × (figures.len ≤ LEASES) × (figures.carried_len ≤ CARRIED) × (fixed.block ≤ fixed.area_len / 512) }
    ensures { (x : Consumer) → Whole (consumer_of fixed figures starts.now ends.now offsets.now slots.now generations.now attempt_starts.now deadlines.now deliveries.now workers.now carried_offsets.now carried_counts.now x.settings.delivery.backoff_nanos rights.now x) → LookedIs (questions.reply (view (consumer_of fixed figures starts.now ends.now offsets.now slots.now generations.now attempt_starts.now deadlines.now deliveries.now workers.now carried_offsets.now carried_counts.now x.settings.delivery.backoff_nanos rights.now x)) worker (question_of (length out.old) question)) (question_of (length out.old) question) out.old result out.new }
{
    match question {
        Question::Waiting { now } => {
            let count = consumer::in_place::waiting_in_place(
                figures.len,
                figures.carried_len,
                now,
                offsets,
                slots,
                deadlines,
                carried_offsets,
                out,
            )?;
            Ok(Reply::Waiting(count))
        }
        Question::Committed => Ok(Reply::Committed(Offset(figures.committed))),
        Question::IsSettled(offset) => {
            let settled = cursor::in_place::is_acked_in_place(
                figures.committed,
                starts,
                ends,
                figures.runs,
                offset.0,
            );
            Ok(Reply::IsSettled(settled))
        }
        Question::LeaseOf(offset) => {
            let lease = lease::in_place::lease_in_place(
                figures.len,
                offset.0,
                offsets,
                slots,
                generations,
                attempt_starts,
                deadlines,
                deliveries,
                workers,
            );
            Ok(Reply::LeaseOf(told_of(lease)))
        }
        Question::CountOf(offset) => {
            let count = consumer::in_place::count_in_place(
                figures.len,
                figures.carried_len,
                offset.0,
                offsets,
                slots,
                deliveries,
                carried_offsets,
                carried_counts,
            );
            Ok(Reply::CountOf(count))
        }
        Question::InFlight => Ok(Reply::InFlight(figures.len)),
        Question::IsDue => Ok(Reply::IsDue(due(fixed, figures))),
        Question::BlocksLeft => {
            let left = halves::blocks_left(fixed.area_len, fixed.block);
            Ok(Reply::BlocksLeft(left))
        }
        Question::ViewOf { offset, now } => {
            let view = consumer::views::view_in_place(
                figures.committed,
                figures.runs,
                figures.len,
                figures.carried_len,
                worker,
                offset.0,
                now,
                rights,
                starts,
                ends,
                offsets,
                slots,
                generations,
                attempt_starts,
                deadlines,
                deliveries,
                workers,
                carried_offsets,
                carried_counts,
            );
            Ok(Reply::ViewOf(view))
        }
        Question::OpenBetween { a, b } => {
            let count = cursor::open::open_between_in_place(
                figures.committed,
                starts,
                ends,
                figures.runs,
                a,
                b,
                out,
            )?;
            Ok(Reply::OpenBetween(count))
        }
        Question::NearestOpen(offset) => {
            let nearest = cursor::open::nearest_in_place(
                figures.committed,
                starts,
                ends,
                figures.runs,
                offset.0,
            );
            Ok(Reply::NearestOpen(Offset(nearest)))
        }
    }
}

// A worker's question, where it may ask one.
fn look<'a>(
    worker: u64,
    fixed: Fixed,
    figures: Figures,
    question: Question,
    starts: &'a [u64; RANGES],
    ends: &'a [u64; RANGES],
    offsets: &'a [u64; LEASES],
    slots: &'a [u32; LEASES],
    generations: &'a [u64; LEASES],
    attempt_starts: &'a [u64; LEASES],
    deadlines: &'a [u64; LEASES],
    deliveries: &'a [u32; LEASES],
    workers: &'a [u32; LEASES],
    carried_offsets: &'a [u64; CARRIED],
    carried_counts: &'a [u32; CARRIED],
    rights: &'a [u8; WORKERS],
    out: &mut [u64],
) -> Result<Reply, Refusal>
    requires { cursor.Whole (ack_cursor figures.committed starts.now ends.now figures.runs) × (figures.len ≤ LEASES) × (figures.carried_len ≤ CARRIED) × (fixed.block ≤ fixed.area_len / 512) }
    ensures { (x : Consumer) → Whole (consumer_of fixed figures starts.now ends.now offsets.now slots.now generations.now attempt_starts.now deadlines.now deliveries.now workers.now carried_offsets.now carried_counts.now x.settings.delivery.backoff_nanos rights.now x) → LookedIs (questions.look (view (consumer_of fixed figures starts.now ends.now offsets.now slots.now generations.now attempt_starts.now deadlines.now deliveries.now workers.now carried_offsets.now carried_counts.now x.settings.delivery.backoff_nanos rights.now x)) worker (question_of (length out.old) question)) (question_of (length out.old) question) out.old result out.new }
{
    rights::permission_of(rights, worker, LOOK)?;
    reply(
        worker,
        fixed,
        figures,
        question,
        starts,
        ends,
        offsets,
        slots,
        generations,
        attempt_starts,
        deadlines,
        deliveries,
        workers,
        carried_offsets,
        carried_counts,
        rights,
        out,
    )
}

// What is told of a lease that was looked up.
fn told_of(lease: Option<Lease>) -> Option<LeaseFigures>
    ensures { lease_told result ≡ lease_values (lease_in lease) }
{
    let lease = lease?;
    let generation = lease.generation;
    Some(LeaseFigures {
        generation,
        attempt_start: lease.attempt_start,
        deadline: lease.deadline,
        deliveries: lease.deliveries,
    })
}

// Whether a checkpoint is due, and why.
fn due(fixed: Fixed, figures: Figures) -> Due
    ensures { result ≡ record { ceiling = leb fixed.ceiling figures.next_generation; threshold = leb fixed.threshold figures.redeliveries } }
{
    Due {
        ceiling: fixed.ceiling <= figures.next_generation,
        threshold: fixed.threshold <= figures.redeliveries,
    }
}

// One call on the state: its answer, and the numbers that it leaves.
pub fn ask_in_place<'a>(
    worker: u64,
    ask: Ask,
    fixed: Fixed,
    figures: Figures,
    starts: &mut [u64; RANGES],
    ends: &mut [u64; RANGES],
    offsets: &mut [u64; LEASES],
    slots: &mut [u32; LEASES],
    generations: &mut [u64; LEASES],
    attempt_starts: &mut [u64; LEASES],
    deadlines: &mut [u64; LEASES],
    deliveries: &mut [u32; LEASES],
    workers: &mut [u32; LEASES],
    carried_offsets: &mut [u64; CARRIED],
    carried_counts: &mut [u32; CARRIED],
    backoff_nanos: &'a [u64; 16],
    rights: &'a [u8; WORKERS],
    out: &mut [u64],
) -> AskedAt
    requires { Ready fixed figures starts.old ends.old offsets.old slots.old generations.old attempt_starts.old deadlines.old deliveries.old workers.old carried_offsets.old carried_counts.old backoff_nanos.now }
    ensures { (x : Consumer) → Whole (consumer_of fixed figures starts.old ends.old offsets.old slots.old generations.old attempt_starts.old deadlines.old deliveries.old workers.old carried_offsets.old carried_counts.old backoff_nanos.now rights.now x) → AskedIs (consumer_of fixed figures starts.old ends.old offsets.old slots.old generations.old attempt_starts.old deadlines.old deliveries.old workers.old carried_offsets.old carried_counts.old backoff_nanos.now rights.now x) worker (ask_of (length out.old) ask) out.old (left result.answer (consumer_of fixed result.figures starts.new ends.new offsets.new slots.new generations.new attempt_starts.new deadlines.new deliveries.new workers.new carried_offsets.new carried_counts.new backoff_nanos.now rights.now x)) out.new }
{
    match ask {
        Ask::Claim { offset, now } => ask_claim(
            worker,
            fixed,
            figures,
            offset,
            now,
            starts,
            ends,
            offsets,
            slots,
            generations,
            attempt_starts,
            deadlines,
            deliveries,
            workers,
            carried_offsets,
            carried_counts,
            rights,
        ),
        Ask::Ack(token) => {
            let settled = settle(
                worker,
                figures,
                token,
                starts,
                ends,
                offsets,
                slots,
                generations,
                deliveries,
                workers,
                rights,
            );
            AskedAt {
                answer: AskAnswer::Acked(settled.answer),
                figures: settled.figures,
            }
        }
        Ask::Term(token) => {
            let settled = settle(
                worker,
                figures,
                token,
                starts,
                ends,
                offsets,
                slots,
                generations,
                deliveries,
                workers,
                rights,
            );
            AskedAt {
                answer: AskAnswer::Termed(settled.answer),
                figures: settled.figures,
            }
        }
        Ask::Nack { token, now, delay } => ask_nack(
            worker,
            fixed,
            figures,
            token,
            now,
            delay,
            offsets,
            slots,
            generations,
            deadlines,
            deliveries,
            workers,
            backoff_nanos,
            rights,
        ),
        Ask::Progress { token, now } => ask_progress(
            worker,
            fixed,
            figures,
            token,
            now,
            offsets,
            slots,
            generations,
            attempt_starts,
            deadlines,
            deliveries,
            workers,
            rights,
        ),
        Ask::Commit(bound) => ask_commit(
            worker,
            figures,
            bound,
            starts,
            ends,
            offsets,
            slots,
            carried_offsets,
            carried_counts,
            rights,
        ),
        Ask::Look(question) => AskedAt {
            answer: AskAnswer::Looked(look(
                worker,
                fixed,
                figures,
                question,
                starts,
                ends,
                offsets,
                slots,
                generations,
                attempt_starts,
                deadlines,
                deliveries,
                workers,
                carried_offsets,
                carried_counts,
                rights,
                out,
            )),
            figures,
        },
    }
}
