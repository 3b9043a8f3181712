// A checkpoint on the words of its record, begin and steps.
ghost use Rattle.std.specs.Prelude.{◌≡◌, length};
ghost use Rattle.lease.specs.Layout as leases;
ghost use Rattle.checkpoint.specs.Checkpoint.{sync_due};
ghost use Rattle.checkpoint.specs.Parts.{PermittedIn};
ghost use Rattle.consumer_words.specs.Layout.{consumer_in};
ghost use Rattle.checkpoint_words.specs.Layout.{WORDS, PAYLOAD, view_writing, Sound, SoundWriting};
ghost use Rattle.checkpoint_words.specs.InWords.{Begins, Counts, stored, Steps};

use crate::layout::{ATTEMPT_LEN, CURSOR_LEN, WRITTEN};
use checkpoint::counts::Columns;
use checkpoint::in_place::{BegunAt, StepNumbers};
use checkpoint::{Wrote, in_place};
use consumer::rights::CHECKPOINT;
use consumer_words::layout::{AREA_LEN, CEILING, CURSOR, NEXT_BLOCK, NEXT_NUMBER, TABLE};
use consumer_words::steps::permission_of;
use cursor::layout::{COMMITTED, ENDS, RUNS, STARTS};
use lease::layout::{
    CARRIED_COUNTS, CARRIED_LEN, CARRIED_OFFSETS, DELIVERIES, GENERATIONS, LEN, NEXT, OFFSETS,
    REDELIVERIES, SLOTS, WORKERS,
};
use types::refusals::Refusal;

// Takes a consumer into a record of the group to be written, and answers how many block writes that takes: both snapshots go into the
// payload, and nothing is written yet. Refused where the worker may not do that (38, 39), or where the group would have a number above
// the largest u32 (31).
pub fn begin(words: &mut [u64], payload: &mut [u8; 3606], worker: u64) -> Result<usize, Refusal>
    requires { Sound words.old × (length payload.old ≡ PAYLOAD) }
    ensures { Begins result worker words.old payload.old words.new payload.new }
{
    permission_of(&words[CURSOR..WRITTEN], worker, CHECKPOINT)?;
    let begun = begin_permitted(words, payload)?;
    words[WRITTEN] = 0;
    words[CURSOR_LEN] = begun.cursor_len as u64;
    words[ATTEMPT_LEN] = begun.attempt_len as u64;
    Ok(begun.writes)
}

// The same for a worker who may, on the payload alone.
fn begin_permitted(words: &[u64], payload: &mut [u8; 3606]) -> Result<BegunAt, Refusal>
    requires { Sound words.now × (length payload.old ≡ PAYLOAD) }
    ensures { PermittedIn result (λ c. consumer_in words.now) payload.old payload.new }
{
    let cursor = &words[CURSOR..TABLE];
    in_place::begin_permitted(
        cursor[COMMITTED],
        cursor[RUNS] as usize,
        columns_of(&words[TABLE..CEILING]),
        words[NEXT_NUMBER],
        words[NEXT_BLOCK] as usize,
        words[AREA_LEN] as usize,
        &cursor[STARTS..ENDS],
        &cursor[ENDS..cursor::layout::WORDS],
        payload,
    )
}

// The columns of a lease table's words that have its counts.
fn columns_of(table: &[u64]) -> Columns<u64>
    requires { length table.now ≡ leases.WORDS }
    ensures { Counts table.now result }
{
    Columns {
        len: table[LEN] as usize,
        carried_len: table[CARRIED_LEN] as usize,
        offsets: &table[OFFSETS..SLOTS],
        slots: &table[SLOTS..GENERATIONS],
        deliveries: &table[DELIVERIES..WORKERS],
        carried_offsets: &table[CARRIED_OFFSETS..CARRIED_COUNTS],
        carried_counts: &table[CARRIED_COUNTS..lease::layout::WORDS],
    }
}

// Makes the next block write, and no other: zeros over the other half, if the group goes there, bodies 1 to n behind the header's place,
// then the header. An area of another length than the consumer was started on is refused (4).
pub fn step(words: &mut [u64], payload: &[u8; 3606], area: &mut [u8]) -> Result<Wrote, Refusal>
    requires { SoundWriting words.old payload.now }
    ensures { Steps result payload.now words.old area.old words.new area.new }
{
    let numbers = StepNumbers {
        written: words[WRITTEN] as usize,
        ceiling: words[CEILING],
        redeliveries: words[TABLE + REDELIVERIES] as u32,
        number: words[NEXT_NUMBER],
        block: words[NEXT_BLOCK] as usize,
    };
    let stepped = in_place::step_in_place(
        numbers,
        words[CURSOR_LEN] as usize,
        words[ATTEMPT_LEN] as usize,
        words[AREA_LEN] as usize,
        words[TABLE + NEXT],
        payload,
        area,
    )?;
    put(words, stepped.numbers);
    Ok(stepped.wrote)
}

// Whether a sync is due after the next block write: after the last block before the header, and after the header, which is the last one.
pub fn sync_due(words: &[u64], payload: &[u8; 3606]) -> bool
    requires { SoundWriting words.now payload.now }
    ensures { result ≡ sync_due (view_writing words.now payload.now) }
{
    in_place::is_sync_due(
        words[WRITTEN] as usize,
        words[CURSOR_LEN] as usize,
        words[ATTEMPT_LEN] as usize,
        words[AREA_LEN] as usize,
        words[NEXT_BLOCK] as usize,
    )
}

// Stores the numbers that steps change.
fn put(words: &mut [u64], numbers: StepNumbers)
    requires { length words.old ≡ WORDS }
    ensures { words.new ≡ stored numbers.written numbers.ceiling numbers.redeliveries numbers.number numbers.block words.old }
{
    words[WRITTEN] = numbers.written as u64;
    words[CEILING] = numbers.ceiling;
    words[TABLE + REDELIVERIES] = u64::from(numbers.redeliveries);
    words[NEXT_NUMBER] = numbers.number;
    words[NEXT_BLOCK] = numbers.block as u64;
}
