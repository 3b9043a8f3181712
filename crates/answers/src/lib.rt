// Where an answer becomes numbers: the refusal's number, 0 where nothing was refused, and its values. For what crosses to another
// language, and for what the programs print.
#![tactic(auto)]

ghost use Rattle.std.specs.Prelude.{◌≡◌, ℕ, List, [], ◌∷◌, ◌++◌, get_or, take};
ghost use Rattle.types.specs.Refusal.{code, numbered, answered};
ghost use Rattle.types.specs.Refused.{refusal_of, as_is};
ghost use Rattle.consumer.specs.Questions.{bit};
ghost use Rattle.consumer.specs.Export.{snapshots};
ghost use Rattle.consumer.specs.Standing.{standing_number, view_values};
ghost use Rattle.consumer.specs.View.{destination_of, claim_of, commit_of, plan_of, export_of, standing_in, view_in};
ghost use Rattle.checkpoint.specs.Writing.{step_of};
ghost use Rattle.machine.specs.Answers.{first_places, lease_told, told_by, reply_of, Arguments, seen_of};
ghost use Rattle.machine.specs.Calls.{Call};
ghost use Rattle.machine.specs.View.{after_of};
ghost use Rattle.machine.specs.declared.Machine.{Machine};
ghost use Rattle.answers.specs.Numbers.{numbers_of, values, dead_letter, hand_out_values, no_values, one_value, bit_value, wrote_values, figures_values, seen_numbers, numbers_in};

use checkpoint::Wrote;
use consumer::calls::HandOut;
use consumer::snapshots::Lengths;
use consumer::views::{Standing, View};
use cursor::columns::Figures;
use delivery::Disposition;
use machine::calls::{AskAnswer, CallAnswer, LeaseFigures, Reply};
use types::numbers::shorter;
use types::refusals::Refusal;

// What a call answers: the refusal's number, 0 where nothing was refused; how many values there are; and the first five of them.
#[repr(C)]
#[derive(Clone, Copy)]
pub struct Numbers(
    pub u64,
    pub u64,
    pub u64,
    pub u64,
    pub u64,
    pub u64,
    pub u64,
);

impl Numbers {
    // A call that can't be made where it stands, or that is none.
    pub const NOT_NOW: Numbers = Numbers(255, 0, 0, 0, 0, 0, 0);
}

// A number without values, with one, and with two.
fn bare(number: u64) -> Numbers
    ensures { result ≡ numbers_of (code number []) }
{
    Numbers(number, 0, 0, 0, 0, 0, 0)
}

fn with_one(number: u64, value: u64) -> Numbers
    ensures { result ≡ numbers_of (code number (value ∷ [])) }
{
    Numbers(number, 1, value, 0, 0, 0, 0)
}

fn with_two(number: u64, first: u64, second: u64) -> Numbers
    ensures { result ≡ numbers_of (code number (first ∷ second ∷ [])) }
{
    Numbers(number, 2, first, second, 0, 0, 0)
}

// A refusal.
pub fn of_refusal(refusal: Refusal) -> Numbers
    ensures { result ≡ numbers_of (numbered (refusal_of refusal)) }
{
    match refusal {
        Refusal::UnlimitedDeliverNotAllowed => bare(1),
        Refusal::TooManySteps => bare(2),
        Refusal::ZeroThreshold => bare(3),
        Refusal::BadArea => bare(4),
        Refusal::Damaged { block } => with_one(5, block as u64),
        Refusal::CursorTruncated => bare(6),
        Refusal::CursorBadLength { len } => with_one(7, len as u64),
        Refusal::CursorUnsupportedVersion { version } => with_one(8, version as u64),
        Refusal::CursorBadCrc => bare(9),
        Refusal::EmptyRange { start, end } => with_two(10, start, end),
        Refusal::NotSortedDisjointAndAboveCommitted { start, prev_end } => {
            with_two(11, start, prev_end)
        }
        Refusal::TooManyRuns => bare(12),
        Refusal::AttemptTruncated => bare(13),
        Refusal::AttemptUnsupportedVersion { version } => with_one(14, version as u64),
        Refusal::AttemptBadLength { len } => with_one(15, len as u64),
        Refusal::CountMismatch { declared, actual } => with_two(16, declared as u64, actual),
        Refusal::AttemptBadCrc => bare(17),
        Refusal::NotSorted {
            offset,
            prev_offset,
        } => with_two(18, offset, prev_offset),
        Refusal::TooManyPairs => bare(19),
        Refusal::OutTooShort => bare(20),
        Refusal::LastOffset => bare(21),
        Refusal::Settled => bare(22),
        Refusal::InFlight => bare(23),
        Refusal::Fenced => bare(24),
        Refusal::Exhausted => bare(25),
        Refusal::CheckpointDue => bare(26),
        Refusal::Full => bare(27),
        Refusal::CapReached => bare(28),
        Refusal::Shed => bare(29),
        Refusal::JournalFull => bare(31),
        Refusal::BoundsReversed => bare(32),
        Refusal::BadHours => bare(33),
        Refusal::NeverOpen => bare(34),
        Refusal::Closed { opening } => with_one(35, opening),
        Refusal::UnequalLengths => bare(36),
        Refusal::Falling { place } => with_one(37, place as u64),
        Refusal::UnknownWorker => bare(38),
        Refusal::NotPermitted => bare(39),
        Refusal::ForeignToken => bare(40),
    }
}

// What has no values: Ack, Term, a start and a restart.
pub fn of_done(answer: Result<(), Refusal>) -> Numbers
    ensures { result ≡ numbers_of (answered no_values (as_is answer)) }
{
    match answer {
        Ok(()) => bare(0),
        Err(refusal) => of_refusal(refusal),
    }
}

// What has one: when the offset of a Nack can be claimed again, and the new deadline of a Progress.
pub fn of_value(answer: Result<u64, Refusal>) -> Numbers
    ensures { result ≡ numbers_of (answered one_value (as_is answer)) }
{
    match answer {
        Ok(value) => with_one(0, value),
        Err(refusal) => of_refusal(refusal),
    }
}

// What counts: the blocks that a begin will write, the pairs of an attempt snapshot, and the position behind what was written.
pub fn of_count(answer: Result<usize, Refusal>) -> Numbers
    ensures { result ≡ numbers_of (answered one_value (as_is answer)) }
{
    match answer {
        Ok(count) => with_one(0, count as u64),
        Err(refusal) => of_refusal(refusal),
    }
}

// A hand-out: its generation, the hand-outs so far, and 1 where it is for the dead letters. Outside hours, the clock of the next opening.
pub fn of_claim(answer: Result<HandOut, Refusal>) -> Numbers
    ensures { result ≡ numbers_of (answered hand_out_values (claim_of answer)) }
{
    match answer {
        Ok(out) => Numbers(
            0,
            3,
            out.token.generation.0,
            out.deliveries as u64,
            dead_letter(out.disposition),
            0,
            0,
        ),
        Err(refusal) => of_refusal(refusal),
    }
}

// 1 for the dead letters, else 0.
fn dead_letter(disposition: Disposition) -> u64
    ensures { result ≡ dead_letter (destination_of disposition) }
{
    match disposition {
        Disposition::Deliver => 0,
        Disposition::DeadLetter => 1,
    }
}

// Commit: 1 where it settled something.
pub fn of_commit(answer: Result<bool, Refusal>) -> Numbers
    ensures { result ≡ numbers_of (answered bit_value (commit_of answer)) }
{
    match answer {
        Ok(moved) => with_one(0, bit_of(moved)),
        Err(refusal) => of_refusal(refusal),
    }
}

// A step: the block that it wrote, and 1 where it was the last.
pub fn of_step(answer: Result<Wrote, Refusal>) -> Numbers
    ensures { result ≡ numbers_of (answered wrote_values (step_of answer)) }
{
    match answer {
        Ok(wrote) => with_two(0, wrote.block as u64, bit_of(wrote.finished)),
        Err(refusal) => of_refusal(refusal),
    }
}

// What reading a cursor snapshot answers: its committed offset and the number of its ranges.
pub fn of_figures(answer: Result<Figures, Refusal>) -> Numbers
    ensures { result ≡ numbers_of (answered figures_values (as_is answer)) }
{
    match answer {
        Ok(figures) => with_two(0, figures.committed, figures.runs as u64),
        Err(refusal) => of_refusal(refusal),
    }
}

// The number at a place of the first n of a list, 0 where there is none.
fn place(list: &[u64], n: usize, i: usize) -> u64
    ensures { result ≡ get_or (first_places n list.now) i 0 }
{
    if i < n {
        if i < list.len() {
            return list[i];
        }
    }
    0
}

// A list that stands in the first places of `out`.
fn of_list(n: usize, out: &[u64]) -> Numbers
    ensures { result ≡ numbers_of (code 0 (first_places n out.now)) }
{
    Numbers(
        0,
        n as u64,
        place(out, n, 0),
        place(out, n, 1),
        place(out, n, 2),
        place(out, n, 3),
        place(out, n, 4),
    )
}

fn wide(byte: u8) -> u64
    ensures { result ≡ byte }
{
    byte as u64
}

// The byte at a place of a list, 0 where there is none.
fn byte_at(list: &[u8], i: usize) -> u64
    ensures { result ≡ get_or list.now i 0 }
{
    if i < list.len() {
        return wide(list[i]);
    }
    0
}

// A plan: how many looks it took, and behind that the bytes that stand in `out`.
pub fn of_plan(answer: Result<usize, Refusal>, out: &[u8]) -> Numbers
    ensures { result ≡ numbers_of (answered values (plan_of answer out.now)) }
{
    match answer {
        Ok(looks) => Numbers(
            0,
            out.len() as u64 + 1,
            looks as u64,
            byte_at(out, 0),
            byte_at(out, 1),
            byte_at(out, 2),
            byte_at(out, 3),
        ),
        Err(refusal) => of_refusal(refusal),
    }
}

// The byte at a place of two lists, one behind the other, 0 where there is none.
fn byte_in(front: &[u8], behind: &[u8], i: usize) -> u64
    ensures { result ≡ get_or (front.now ++ behind.now) i 0 }
{
    let n = front.len();
    if i < n {
        return byte_at(front, i);
    }
    byte_at(behind, i - n)
}

// Two snapshots: how long they are, and behind that their bytes.
fn of_snapshots(lengths: Lengths, cursor: &[u8], attempts: &[u8]) -> Numbers
    ensures { result ≡ numbers_of (code 0 (lengths.cursor_len ∷ lengths.attempt_len ∷ (take lengths.cursor_len cursor.now ++ take lengths.attempt_len attempts.now))) }
{
    let n = shorter(lengths.cursor_len as usize, cursor.len());
    let k = shorter(lengths.attempt_len as usize, attempts.len());
    let front = &cursor[..n];
    let behind = &attempts[..k];
    Numbers(
        0,
        (n + k + 2) as u64,
        lengths.cursor_len as u64,
        lengths.attempt_len as u64,
        byte_in(front, behind, 0),
        byte_in(front, behind, 1),
        byte_in(front, behind, 2),
    )
}

// An export: how long both snapshots are, and behind that the bytes that stand at the front of the lent lists.
pub fn of_export(answer: Result<Lengths, Refusal>, cursor: &[u8], attempts: &[u8]) -> Numbers
    ensures { result ≡ numbers_of (answered values (export_of answer (snapshots cursor.now attempts.now))) }
{
    match answer {
        Ok(lengths) => of_snapshots(lengths, cursor, attempts),
        Err(refusal) => of_refusal(refusal),
    }
}

// A lease: its generation, the start of its attempt, its deadline and its hand-outs; or nothing.
fn of_lease(lease: Option<LeaseFigures>) -> Numbers
    ensures { result ≡ numbers_of (code 0 (lease_told lease)) }
{
    match lease {
        Some(lease) => Numbers(
            0,
            4,
            lease.generation.0,
            lease.attempt_start,
            lease.deadline,
            lease.deliveries as u64,
            0,
        ),
        None => bare(0),
    }
}

// 1 where a test holds, else 0.
fn bit_of(test: bool) -> u64
    ensures { result ≡ bit test }
{
    if test { 1 } else { 0 }
}

fn number_of(standing: Standing) -> u64
    ensures { result ≡ standing_number (standing_in standing) }
{
    match standing {
        Standing::Settled => 0,
        Standing::Held => 1,
        Standing::Waiting => 2,
    }
}

// What is shown of an offset: its standing, and then what is not absent.
fn of_view(view: View) -> Numbers
    ensures { result ≡ numbers_of (code 0 (view_values (view_in view))) }
{
    match view {
        View::Plain(standing) => with_one(0, number_of(standing)),
        View::Unleased { attempts } => with_two(0, 2, attempts as u64),
        View::Leased { standing, lease } => Numbers(
            0,
            5,
            number_of(standing),
            lease.attempts as u64,
            lease.generation.0,
            lease.deadline,
            lease.holder as u64,
        ),
    }
}

// What a question is answered, where it isn't refused.
fn of_reply(reply: Reply, out: &[u64]) -> Numbers
    ensures { result ≡ numbers_of (code 0 (told_by reply out.now)) }
{
    match reply {
        Reply::Waiting(count) => of_list(count, out),
        Reply::Committed(offset) => with_one(0, offset.0),
        Reply::IsSettled(settled) => with_one(0, bit_of(settled)),
        Reply::LeaseOf(lease) => of_lease(lease),
        Reply::CountOf(count) => with_one(0, count as u64),
        Reply::InFlight(count) => with_one(0, count as u64),
        Reply::IsDue(due) => with_two(0, bit_of(due.ceiling), bit_of(due.threshold)),
        Reply::BlocksLeft(count) => with_one(0, count as u64),
        Reply::ViewOf(view) => of_view(view),
        Reply::OpenBetween(count) => of_list(count, out),
        Reply::NearestOpen(offset) => with_one(0, offset.0),
    }
}

// A question: what it is answered.
pub fn of_look(answer: Result<Reply, Refusal>, out: &[u64]) -> Numbers
    ensures { result ≡ numbers_of (answered values (reply_of answer out.now)) }
{
    match answer {
        Ok(reply) => of_reply(reply, out),
        Err(refusal) => of_refusal(refusal),
    }
}

// A call on the state.
pub fn of_ask(answer: AskAnswer, out: &[u64]) -> Numbers
    ensures { (g : Arguments) → result ≡ seen_numbers (seen_of g answer out.now) }
{
    match answer {
        AskAnswer::Claimed(answer) => of_claim(answer),
        AskAnswer::Acked(answer) => of_done(answer),
        AskAnswer::Termed(answer) => of_done(answer),
        AskAnswer::Nacked(answer) => of_value(answer),
        AskAnswer::Progressed(answer) => of_value(answer),
        AskAnswer::Committed(answer) => of_commit(answer),
        AskAnswer::Looked(answer) => of_look(answer, out),
    }
}

// A call on a machine; 255 where it can't be made where it stands.
pub fn of_call(answer: CallAnswer, out: &[u64]) -> Numbers
    ensures { (q : Call) (m : Machine) (a : List ℕ) → result ≡ numbers_in (after_of q answer m a out.now) }
{
    match answer {
        CallAnswer::Asked(answer) => of_ask(answer, out),
        CallAnswer::Begun(answer) => of_count(answer),
        CallAnswer::Stepped(answer) => of_step(answer),
        CallAnswer::Restarted(answer) => of_done(answer),
        CallAnswer::NotNow => Numbers::NOT_NOW,
    }
}
