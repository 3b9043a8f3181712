// A checkpoint, block write by block write: begin takes the consumer into a writing record, each step makes the next block
// write, and the last one, the header's, gives the consumer back. While a record is out there is no consumer to call.
#![tactic(auto)]

ghost use Rattle.consumer.specs.View.{Sound};
ghost use Rattle.std.specs.Prelude.{◌≡◌};
ghost use Rattle.checkpoint.specs.Checkpoint.{sync_due};
ghost use Rattle.checkpoint.specs.Writing.{view_writing, SoundWriting, SteppedIs};
ghost use Rattle.checkpoint.specs.Parts.{unbegun, BegunAs};

pub mod counts;
pub mod in_place;

use crate::counts::Columns;
use crate::in_place::StepNumbers;
use consumer::Consumer;
use types::refusals::Refusal;

// The consumer, the number of blocks written, and what is written: the snapshots of the cursor and of all attempt counts, one
// behind the other at the front of the payload.
#[repr(C)]
#[derive(Clone, Copy)]
pub struct Writing {
    pub consumer: Consumer,
    pub written: usize,
    pub payload: [u8; 3606],
    pub cursor_len: usize,
    pub attempt_len: usize,
}

// The block that a step wrote, and whether it was the checkpoint's last one, the header's.
#[derive(Clone, Copy, Debug, PartialEq, Eq)]
pub struct Wrote {
    pub block: usize,
    pub finished: bool,
}

// The number of block writes, or refusal 38, 39 or 31: nothing is begun in the record then, which has the very consumer and is not to
// be stepped.
#[derive(Clone, Copy)]
pub struct Begun {
    pub answer: Result<usize, Refusal>,
    pub writing: Writing,
}

// What a step wrote, or refusal 4. After the last write the record's consumer is the one to go on with, and the record is not to be
// stepped.
#[derive(Clone, Copy)]
pub struct Stepped {
    pub answer: Result<Wrote, Refusal>,
    pub writing: Writing,
}

// Takes a consumer into a record of the group to be written; nothing is written yet. Refused where the worker may not do that
// (38, 39), or where the group would have a number above the largest u32 (31).
pub fn begin(consumer: Consumer, worker: u64) -> Begun
    requires { Sound consumer }
    ensures { BegunAs result.answer worker (unbegun consumer) result.writing }
{
    let mut payload = [0u8; 3606];
    let counts = Columns {
        len: consumer.table.len,
        carried_len: consumer.table.carried_len,
        offsets: &consumer.table.offsets,
        slots: &consumer.table.slots,
        deliveries: &consumer.table.deliveries,
        carried_offsets: &consumer.table.carried_offsets,
        carried_counts: &consumer.table.carried_counts,
    };
    let begun = in_place::begin_in_place(
        consumer.cursor.committed,
        consumer.cursor.runs,
        counts,
        consumer.next.number,
        consumer.next.block,
        consumer.area_len,
        worker,
        &consumer.settings.rights,
        &consumer.cursor.starts,
        &consumer.cursor.ends,
        &mut payload,
    );
    let begun = match begun {
        Ok(begun) => begun,
        Err(refusal) => {
            return Begun {
                answer: Err(refusal),
                writing: Writing {
                    consumer,
                    written: 0,
                    payload,
                    cursor_len: 0,
                    attempt_len: 0,
                },
            };
        }
    };
    Begun {
        answer: Ok(begun.writes),
        writing: Writing {
            consumer,
            written: 0,
            payload,
            cursor_len: begun.cursor_len,
            attempt_len: begun.attempt_len,
        },
    }
}

impl Writing {
    // Makes the next block write, and no other: zeros over the other half, if the group goes there, bodies 1 to n behind the
    // header's place, then the header. An area of another length than the consumer was started on is refused (4).
    pub fn step(mut self, area: &mut [u8]) -> Stepped
        requires { SoundWriting self }
        ensures { SteppedIs self area.old result area.new }
    {
        let numbers = StepNumbers {
            written: self.written,
            ceiling: self.consumer.ceiling.0,
            redeliveries: self.consumer.table.redeliveries_since_flush,
            number: self.consumer.next.number,
            block: self.consumer.next.block,
        };
        let stepped = in_place::step_in_place(
            numbers,
            self.cursor_len,
            self.attempt_len,
            self.consumer.area_len,
            self.consumer.table.next_generation.0,
            &self.payload,
            area,
        );
        let stepped = match stepped {
            Ok(stepped) => stepped,
            Err(refusal) => {
                return Stepped {
                    answer: Err(refusal),
                    writing: self,
                };
            }
        };
        let after = stepped.numbers;
        self.written = after.written;
        self.consumer.ceiling.0 = after.ceiling;
        self.consumer.table.redeliveries_since_flush = after.redeliveries;
        self.consumer.next.number = after.number;
        self.consumer.next.block = after.block;
        Stepped {
            answer: Ok(stepped.wrote),
            writing: self,
        }
    }

    // Whether a sync is due after the next block write: after the last block before the header, and after the header, which is the
    // last one.
    pub fn sync_due(&self) -> bool
        requires { SoundWriting self.now }
        ensures { result ≡ sync_due (view_writing self.now) }
    {
        in_place::is_sync_due(
            self.written,
            self.cursor_len,
            self.attempt_len,
            self.consumer.area_len,
            self.consumer.next.block,
        )
    }
}
