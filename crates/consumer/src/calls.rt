// The calls that change the state and write nothing: claim, Ack, Term, Nack, Progress and Commit. Each is a worker's, and is refused
// with 38 where there is no worker of that number, or with 39 where that worker may not make it, before all else.
ghost use Rattle.delivery.specs.Config.{delay_of};
ghost use Rattle.consumer.specs.Calls.{claim, ack, nack, progress, commit};
ghost use Rattle.consumer.specs.View.{view, Sound, Answers, Commits, claim_of, settle_of, nack_of, progress_of, commit_of};

use crate::{Consumer, in_place};
use delivery::Disposition;
use lease::LeaseToken;
use types::Offset;
use types::refusals::Refusal;

// What a claim hands out: its token, the number of hand-outs so far, this one counted, and whether it is for delivery or for the dead
// letters.
#[derive(Clone, Copy, Debug, PartialEq, Eq)]
pub struct HandOut {
    pub token: LeaseToken,
    pub deliveries: u32,
    pub disposition: Disposition,
}

// What a call answers, and the consumer after it.
#[derive(Clone, Copy)]
pub struct Answered<T> {
    pub answer: T,
    pub consumer: Consumer,
}

impl Consumer {
    // Claims an offset: it is handed out to the worker under the next generation, which fences off whoever held it before. Refusal 38, 39,
    // 21, 22, 35 with the clock of the next opening, 23, 25, 26 or 27.
    pub fn claim(self, worker: u64, offset: Offset, now: u64) -> Answered<Result<HandOut, Refusal>>
        requires { Sound self }
        ensures { Answers (claim_of result.answer) self result.consumer (claim (view self) worker offset.0 now) }
    {
        let mut table = self.table;
        let claimed = in_place::claim_in_place(
            table.config,
            self.settings.hours,
            self.ceiling.0,
            self.settings.delivery.max_deliver,
            self.settings.delivery.attempts_flush_redeliveries,
            self.cursor.committed,
            self.cursor.runs,
            table.len,
            table.carried_len,
            table.next_generation.0,
            table.redeliveries_since_flush,
            worker,
            offset.0,
            now,
            &self.settings.rights,
            &self.cursor.starts,
            &self.cursor.ends,
            &mut table.offsets,
            &mut table.slots,
            &mut table.generations,
            &mut table.attempt_starts,
            &mut table.deadlines,
            &mut table.deliveries,
            &mut table.workers,
            &mut table.carried_offsets,
            &mut table.carried_counts,
        );
        table.len = claimed.len;
        table.carried_len = claimed.carried_len;
        table.next_generation.0 = claimed.next_generation;
        table.redeliveries_since_flush = claimed.redeliveries;
        Answered {
            answer: claimed.answer,
            consumer: Consumer { table, ..self },
        }
    }

    // Done: the lease goes and the offset is settled. Refusal 38, 39, 24, 40 or 29.
    pub fn ack(self, worker: u64, token: LeaseToken) -> Answered<Result<(), Refusal>>
        requires { Sound self }
        ensures { Answers (settle_of result.answer) self result.consumer (ack (view self) worker token.offset.0 token.generation.0) }
    {
        let mut cursor = self.cursor;
        let mut table = self.table;
        let settled = in_place::settle_in_place(
            cursor.committed,
            cursor.runs,
            table.len,
            worker,
            token.offset.0,
            token.generation.0,
            &self.settings.rights,
            &mut cursor.starts,
            &mut cursor.ends,
            &mut table.offsets,
            &mut table.slots,
            &table.generations,
            &table.deliveries,
            &table.workers,
        );
        cursor.committed = settled.committed;
        cursor.runs = settled.runs;
        table.len = settled.len;
        Answered {
            answer: settled.answer,
            consumer: Consumer {
                cursor,
                table,
                ..self
            },
        }
    }

    // Given up for good: settled as by an ack.
    pub fn term(self, worker: u64, token: LeaseToken) -> Answered<Result<(), Refusal>>
        requires { Sound self }
        ensures { Answers (settle_of result.answer) self result.consumer (ack (view self) worker token.offset.0 token.generation.0) }
    {
        self.ack(worker, token)
    }

    // Failed: the offset can be claimed again after the delay, its own or that of the schedule for so many hand-outs, but no later than
    // the hard cap from now; and where that falls outside the hours, at the next opening. The answer is when. Refusal 38, 39, 24, 40, 25
    // or 26.
    pub fn nack(
        self,
        worker: u64,
        token: LeaseToken,
        now: u64,
        delay: Option<u64>,
    ) -> Answered<Result<u64, Refusal>>
        requires { Sound self }
        ensures { Answers (nack_of result.answer) self result.consumer (nack (view self) worker token.offset.0 token.generation.0 now (delay_of delay)) }
    {
        let mut table = self.table;
        let nacked = in_place::nack_in_place(
            table.config,
            self.settings.hours,
            self.ceiling.0,
            self.settings.delivery.backoff_len,
            table.len,
            table.next_generation.0,
            worker,
            token.offset.0,
            token.generation.0,
            now,
            delay,
            &self.settings.rights,
            &self.settings.delivery.backoff_nanos,
            &table.offsets,
            &table.slots,
            &mut table.generations,
            &mut table.deadlines,
            &table.deliveries,
            &table.workers,
        );
        table.next_generation.0 = nacked.next_generation;
        Answered {
            answer: nacked.answer,
            consumer: Consumer { table, ..self },
        }
    }

    // Still being worked on: the lease is extended by one visibility window from now, within the hard cap of its attempt. The answer is the
    // new deadline. Refusal 38, 39, 24, 40 or 28.
    pub fn progress(
        self,
        worker: u64,
        token: LeaseToken,
        now: u64,
    ) -> Answered<Result<u64, Refusal>>
        requires { Sound self }
        ensures { Answers (progress_of result.answer) self result.consumer (progress (view self) worker token.offset.0 token.generation.0 now) }
    {
        let mut table = self.table;
        let answer = in_place::progress_in_place(
            table.config,
            table.len,
            worker,
            token.offset.0,
            token.generation.0,
            now,
            &self.settings.rights,
            &table.offsets,
            &table.slots,
            &table.generations,
            &table.attempt_starts,
            &mut table.deadlines,
            &table.deliveries,
            &table.workers,
        );
        Answered {
            answer,
            consumer: Consumer { table, ..self },
        }
    }

    // Settles every offset below the bound, held or not, and drops their leases and counts; the answer is whether there was anything to
    // settle, and nothing changes where there wasn't. Refusal 38 or 39.
    pub fn commit(self, worker: u64, bound: Offset) -> Answered<Result<bool, Refusal>>
        requires { Sound self }
        ensures { Commits (commit_of result.answer) self result.consumer (commit (view self) worker bound.0) }
    {
        let mut cursor = self.cursor;
        let mut table = self.table;
        let committed = in_place::commit_in_place(
            cursor.committed,
            cursor.runs,
            table.len,
            table.carried_len,
            worker,
            bound.0,
            &self.settings.rights,
            &mut cursor.starts,
            &mut cursor.ends,
            &mut table.offsets,
            &mut table.slots,
            &mut table.carried_offsets,
            &mut table.carried_counts,
        );
        cursor.committed = committed.committed;
        cursor.runs = committed.runs;
        table.len = committed.len;
        table.carried_len = committed.carried_len;
        Answered {
            answer: committed.answer,
            consumer: Consumer {
                cursor,
                table,
                ..self
            },
        }
    }
}
