// The calls that change the state and write nothing, on a consumer that is one lent list of words (`layout` says where its parts lie):
// claim, Ack, Term, Nack, Progress and Commit. Each is a worker's, and is refused with 38 where there is no worker of that number, or
// with 39 where that worker may not make it, before all else. The cursor and the lease table are lent their words one after the other.
ghost use Rattle.types.specs.Refusal.{done};
ghost use Rattle.delivery.specs.Config.{delay_of};
ghost use Rattle.consumer.specs.Calls.{claim, ack, nack, progress, commit};
ghost use Rattle.consumer.specs.View.{claim_of, settle_of, nack_of, progress_of, commit_of};
ghost use Rattle.consumer_words.specs.Layout.{view, Sound};
ghost use Rattle.consumer_words.specs.InWords.{Answers, Commits, CommitsFor};

use crate::layout::{CEILING, CURSOR, MAX_DELIVER, TABLE};
use crate::{reads, steps};
use consumer::calls::HandOut;
use consumer::rights::{COMMIT, EXTEND, NACK, SETTLE};
use lease::LeaseToken;
use types::Offset;
use types::limits::RANGES;
use types::refusals::Refusal;

// Claims an offset: it is handed out to the worker under the next generation, which fences off whoever held it before: 38, 39, 21, 22, 35,
// 23, 25, 26, 27.
pub fn claim(words: &mut [u64], worker: u64, offset: Offset, now: u64) -> Result<HandOut, Refusal>
    requires { Sound words.old }
    ensures { Answers (claim_of result) words.old words.new (claim (view words.old) worker offset.0 now) }
{
    let place = steps::claim_test(words, worker, offset, now)?;
    let limit = words[MAX_DELIVER] as u32;
    let grant = lease::in_words::grant_at(
        &mut words[TABLE..CEILING],
        place,
        worker as u32,
        offset,
        now,
    );
    consumer::steps::handed_out(limit, Ok(grant))
}

// Done: the lease goes and the offset is settled: 38, 39, 24, 40, 29. The cursor, which has to have room, is asked before the lease goes.
pub fn ack(words: &mut [u64], worker: u64, token: LeaseToken) -> Result<(), Refusal>
    requires { Sound words.old }
    ensures { Answers (settle_of result) words.old words.new (ack (view words.old) worker token.offset.0 token.generation.0) }
{
    let held = steps::token_test(words, worker, SETTLE, token)?;
    let outcome = cursor::in_words::ack_bounded(&mut words[CURSOR..TABLE], token.offset, RANGES);
    if consumer::steps::is_shed(outcome) {
        return Err(Refusal::Shed);
    }
    lease::in_words::ack_at(&mut words[TABLE..CEILING], held.at);
    Ok(())
}

// Given up for good: settled as by an ack.
pub fn term(words: &mut [u64], worker: u64, token: LeaseToken) -> Result<(), Refusal>
    requires { Sound words.old }
    ensures { Answers (settle_of result) words.old words.new (ack (view words.old) worker token.offset.0 token.generation.0) }
{
    ack(words, worker, token)
}

// Failed: the offset can be claimed again after the delay, its own or that of the schedule for so many hand-outs, but no later than the
// hard cap from now; and where that falls outside the hours, at the next opening: 38, 39, 24, 40, 25, 26.
pub fn nack(
    words: &mut [u64],
    worker: u64,
    token: LeaseToken,
    now: u64,
    delay: Option<u64>,
) -> Result<u64, Refusal>
    requires { Sound words.old }
    ensures { Answers (nack_of result) words.old words.new (nack (view words.old) worker token.offset.0 token.generation.0 now (delay_of delay)) }
{
    let held = steps::token_test(words, worker, NACK, token)?;
    if reads::is_exhausted(words) {
        return Err(Refusal::Exhausted);
    }
    if reads::is_at_ceiling(words) {
        return Err(Refusal::CheckpointDue);
    }
    let wait = steps::nack_delay(words, held.deliveries, now, delay);
    let deadline = lease::in_words::requeue_at(&mut words[TABLE..CEILING], held.at, now, wait);
    Ok(deadline)
}

// Still being worked on: the lease is extended by one visibility window from now, within the hard cap of its attempt: 38, 39, 24, 40, 28.
pub fn progress(words: &mut [u64], worker: u64, token: LeaseToken, now: u64) -> Result<u64, Refusal>
    requires { Sound words.old }
    ensures { Answers (progress_of result) words.old words.new (progress (view words.old) worker token.offset.0 token.generation.0 now) }
{
    let held = steps::token_test(words, worker, EXTEND, token)?;
    lease::in_words::extend_at(&mut words[TABLE..CEILING], held.at, now)
}

// Settles every offset below the bound, held or not, and drops their leases and counts: 38, 39. Where that was so before nothing changes,
// and the answer is false.
pub fn commit(words: &mut [u64], worker: u64, bound: Offset) -> Result<bool, Refusal>
    requires { Sound words.old }
    ensures { Commits (commit_of result) words.old words.new (commit (view words.old) worker bound.0) }
{
    steps::permission_of(words, worker, COMMIT)?;
    Ok(commit_below(words, bound))
}

// The same for a worker who may commit. The cursor says whether the bound is above committed.
fn commit_below(words: &mut [u64], bound: Offset) -> bool
    requires { Sound words.old }
    ensures { CommitsFor (done result) words.old words.new bound.0 }
{
    let moved = cursor::in_words::commit_up_to(&mut words[CURSOR..TABLE], bound);
    if moved {
        lease::in_words::release_below(&mut words[TABLE..CEILING], bound);
    }
    moved
}
