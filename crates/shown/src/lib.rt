// What the programs print alike: the state of a consumer.
#![tactic(auto)]

ghost use Rattle.std.specs.Prelude.{◌≡◌, [], ◌∷◌, get_or};
ghost use Rattle.types.specs.Keyed.{entry};
ghost use Rattle.lease.specs.State.{nil, stored_in, leases_of, carried_of};
ghost use Rattle.consumer.specs.View.{view};
ghost use Rattle.text.specs.Output.{Says};
ghost use Rattle.shown.specs.Shown.{text_number, mark, none_where, ranges_text, ahead_of, lease_text, leases_text, carried_text, numbers_text, state_line};

use consumer::Consumer;
use consumer::halves::half_in_use;
use cursor::AckCursor;
use lease::{Lease, LeaseTable};
use text::output::Output;
use types::Generation;
use types::limits::{CARRIED, LEASES};

// A text and a number behind it.
pub fn with(out: &mut Output, text: &[u8], n: u64)
    ensures { Says (text_number text.now n) out.old out.new }
{
    out.put(text);
    out.put_number(n);
}

// What stands in front of entry i of a list, and what an empty list is.
pub fn before(out: &mut Output, i: usize)
    ensures { Says (mark i ∷ []) out.old out.new }
{
    out.put(if i == 0 { b" " } else { b"," });
}

pub fn or_none(out: &mut Output, n: usize)
    ensures { Says (none_where n) out.old out.new }
{
    if n == 0 {
        out.put(b" none");
    }
}

// The ranges ahead of committed.
pub fn ranges(out: &mut Output, cursor: AckCursor)
    ensures { Says (ranges_text (ahead_of cursor)) out.old out.new }
{
    out.put(b" ranges");
    or_none(out, cursor.runs);
    for i in 0..cursor.runs.min(128) {
        before(out, i);
        out.put_number(cursor.starts[i]);
        with(out, b"-", cursor.ends[i]);
    }
}

fn lease(out: &mut Output, offset: u64, lease: Lease)
    ensures { Says (lease_text (entry offset lease)) out.old out.new }
{
    let times = [
        offset,
        lease.generation.0,
        lease.attempt_start,
        lease.deadline,
    ];
    out.say(b"#:#:#:#", &times);
    with(out, b":", u64::from(lease.deliveries));
}

// The lease at a slot. A number that is no slot, which no call leaves, has one of zeros.
fn stored_at(slot: u32, table: LeaseTable) -> Lease
    ensures { result ≡ get_or (stored_in table) slot nil }
{
    let at = slot as usize;
    if LEASES <= at {
        return Lease {
            generation: Generation(0),
            attempt_start: 0,
            deadline: 0,
            deliveries: 0,
            worker: 0,
        };
    }
    Lease {
        generation: Generation(table.generations[at]),
        attempt_start: table.attempt_starts[at],
        deadline: table.deadlines[at],
        deliveries: table.deliveries[at],
        worker: table.workers[at],
    }
}

fn leases(out: &mut Output, table: LeaseTable)
    ensures { Says (leases_text (leases_of table)) out.old out.new }
{
    out.put(b" leases");
    or_none(out, table.len);
    for i in 0..table.len.min(LEASES) {
        before(out, i);
        lease(out, table.offsets[i], stored_at(table.slots[i], table));
    }
}

fn carried(out: &mut Output, table: LeaseTable)
    ensures { Says (carried_text (carried_of table)) out.old out.new }
{
    out.put(b" carried");
    or_none(out, table.carried_len);
    for i in 0..table.carried_len.min(CARRIED) {
        before(out, i);
        out.put_number(table.carried_offsets[i]);
        with(out, b":", u64::from(table.carried_counts[i]));
    }
}

// Generations, the redelivery counter, where the next group goes, and the half in use.
fn numbers(out: &mut Output, consumer: Consumer)
    ensures { Says (numbers_text (view consumer)) out.old out.new }
{
    let numbers = [
        consumer.table.next_generation.0,
        consumer.ceiling.0,
        u64::from(consumer.table.redeliveries_since_flush),
        consumer.next.number,
    ];
    out.say(b" next # ceiling # counter # group #", &numbers);
    let block = consumer.next.block;
    let half = half_in_use(consumer.area_len, block);
    out.say(b" block # half #\n", &[block as u64, half as u64]);
}

// The whole state.
pub fn state(out: &mut Output, consumer: Consumer)
    ensures { Says (state_line (view consumer)) out.old out.new }
{
    let table = consumer.table;
    with(out, b"state committed ", consumer.cursor.committed);
    ranges(out, consumer.cursor);
    leases(out, table);
    carried(out, table);
    numbers(out, consumer);
}
