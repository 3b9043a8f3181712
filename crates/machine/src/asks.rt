// A call on a consumer by value: the call in place, on columns of its own.
ghost use Rattle.std.specs.Prelude.{length};
ghost use Rattle.consumer.specs.View.{Sound};
ghost use Rattle.machine.specs.Answers.{ask_of};
ghost use Rattle.machine.specs.View.{AskedIs};

use crate::calls::{Ask, Asked};
use crate::in_place::{Figures, Fixed, ask_in_place};
use consumer::Consumer;
use cursor::AckCursor;
use lease::LeaseTable;
use types::Generation;

// One call of a worker on the state: its answer beside the state that it leaves.
pub fn ask(consumer: Consumer, worker: u64, ask: Ask, out: &mut [u64]) -> Asked
    requires { Sound consumer }
    ensures { AskedIs consumer worker (ask_of (length out.old) ask) out.old result out.new }
{
    let cursor = consumer.cursor;
    let table = consumer.table;
    let settings = consumer.settings;
    let delivery = settings.delivery;
    let ceiling = consumer.ceiling;
    let next = consumer.next;
    let config = table.config;
    let hours = settings.hours;
    let fixed = Fixed {
        config,
        hours,
        ceiling: ceiling.0,
        block: next.block,
        area_len: consumer.area_len,
        max_deliver: delivery.max_deliver,
        backoff_len: delivery.backoff_len,
        threshold: delivery.attempts_flush_redeliveries,
    };
    let generation = table.next_generation;
    let figures = Figures {
        committed: cursor.committed,
        runs: cursor.runs,
        len: table.len,
        carried_len: table.carried_len,
        next_generation: generation.0,
        redeliveries: table.redeliveries_since_flush,
    };
    let backoff_nanos = delivery.backoff_nanos;
    let rights = settings.rights;
    let mut starts = cursor.starts;
    let mut ends = cursor.ends;
    let mut offsets = table.offsets;
    let mut slots = table.slots;
    let mut generations = table.generations;
    let mut attempt_starts = table.attempt_starts;
    let mut deadlines = table.deadlines;
    let mut deliveries = table.deliveries;
    let mut workers = table.workers;
    let mut carried_offsets = table.carried_offsets;
    let mut carried_counts = table.carried_counts;
    let done = ask_in_place(
        worker,
        ask,
        fixed,
        figures,
        &mut starts,
        &mut ends,
        &mut offsets,
        &mut slots,
        &mut generations,
        &mut attempt_starts,
        &mut deadlines,
        &mut deliveries,
        &mut workers,
        &mut carried_offsets,
        &mut carried_counts,
        &backoff_nanos,
        &rights,
        out,
    );
    let answer = done.answer;
    let after = done.figures;
    Asked {
        answer,
        consumer: Consumer {
            cursor: AckCursor {
                committed: after.committed,
                starts,
                ends,
                runs: after.runs,
            },
            table: LeaseTable {
                config,
                offsets,
                slots,
                generations,
                attempt_starts,
                deadlines,
                deliveries,
                workers,
                len: after.len,
                carried_offsets,
                carried_counts,
                carried_len: after.carried_len,
                next_generation: Generation(after.next_generation),
                redeliveries_since_flush: after.redeliveries,
            },
            ceiling,
            next,
            area_len: consumer.area_len,
            settings,
        },
    }
}
