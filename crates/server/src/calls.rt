// The calls on a machine, for Rust: the state behind `&mut`, calls and answers in numbers. Whoever calls keeps one machine and hands
// the same one in each time, so that each call gets what the one before left.
ghost use Rattle.std.specs.Prelude.{List, ℕ, ◌≡◌, length};
ghost use Rattle.consumer.specs.Export.{snapshots};
ghost use Rattle.machine.specs.View.{phase_of, Sound};
ghost use Rattle.server.specs.Parts.{Sized};
ghost use Rattle.server.specs.Transitions.{AskIs, CallIs, due_next, PlanIs, ExportIs, SwitchedOff, StartIs, ImportIs};

use crate::in_place::{
    ask_in_place, begin_in_place, export_in_place, plan_in_place, progress_in_place, step_in_place,
};
use crate::transitions::{import, start};
use answers::Numbers;
use checkpoint::Writing;
use checkpoint::in_place::StepNumbers;
use consumer::Configuration;
use machine::Machine;
use machine::in_place::{Figures, Fixed};

// `start`, into the machine's place, whatever stands there.
pub fn ninotskev_start(
    machine: &mut Machine,
    numbers: &mut Numbers,
    configuration: &Configuration,
    area_len: usize,
)
    ensures { StartIs machine.old configuration.now area_len numbers.new machine.new }
{
    let before = *machine;
    let given = *configuration;
    let started = start(before, given, area_len);
    *machine = started.machine;
    *numbers = started.numbers;
}

// `import`, into the machine's place, whatever stands there: the bytes of two snapshots and the first generation. A refusal leaves what
// stands there.
pub fn ninotskev_import<'a>(
    machine: &mut Machine,
    numbers: &mut Numbers,
    configuration: &Configuration,
    area_len: usize,
    generation: u64,
    cursor: &'a [u8],
    attempts: &'a [u8],
)
    ensures { ImportIs machine.old configuration.now area_len generation cursor.now attempts.now numbers.new machine.new }
{
    let before = *machine;
    let given = *configuration;
    let imported = import(before, given, area_len, generation, cursor, attempts);
    *machine = imported.machine;
    *numbers = imported.numbers;
}

// A machine that is off, in its place: only a restart is possible. What else stood there stays, and nobody can call it.
pub fn ninotskev_off(machine: &mut Machine, configuration: &Configuration)
    ensures { SwitchedOff machine.old configuration.now machine.new }
{
    machine.configuration = *configuration;
    machine.phase = 2;
}

// What the type of a record says of its arrays, for the functions that are lent them one by one. It changes nothing: what it reads tells
// the lengths.
fn lengths(writing: &Writing)
    ensures arrays { Sized writing.now.consumer }
    ensures payload { length writing.now.payload ≡ 3606 }
{
    let _starts = writing.consumer.cursor.starts[0];
    let _ends = writing.consumer.cursor.ends[0];
    let _offsets = writing.consumer.table.offsets[0];
    let _slots = writing.consumer.table.slots[0];
    let _generations = writing.consumer.table.generations[0];
    let _attempt_starts = writing.consumer.table.attempt_starts[0];
    let _deadlines = writing.consumer.table.deadlines[0];
    let _deliveries = writing.consumer.table.deliveries[0];
    let _workers = writing.consumer.table.workers[0];
    let _carried_offsets = writing.consumer.table.carried_offsets[0];
    let _carried_counts = writing.consumer.table.carried_counts[0];
    let _backoff_nanos = writing.consumer.settings.delivery.backoff_nanos[0];
    let _payload = writing.payload[0];
}

// `restart` on the machine in its place.
pub fn ninotskev_restart(machine: &mut Machine, numbers: &mut Numbers, area: &[u8])
    requires { Sound machine.old }
    ensures { (out : List ℕ) → CallIs machine.old 0 18 0 0 0 0 area.now out numbers.new machine.new area.now out }
{
    lengths(&machine.writing);
    let done = starts::in_place::restart_in_place(
        machine.configuration,
        area,
        &mut machine.writing.consumer.cursor.starts,
        &mut machine.writing.consumer.cursor.ends,
        &mut machine.writing.consumer.table.carried_offsets,
        &mut machine.writing.consumer.table.carried_counts,
    );
    match done {
        Ok(left) => {
            starts::in_place::free_slots(&mut machine.writing.consumer.table.slots);
            let next = left.ceiling;
            let size = area.len();
            let lease = machine.configuration.lease;
            let settings = machine.configuration.settings;
            machine.phase = 0;
            machine.writing.consumer.cursor.committed = left.committed;
            machine.writing.consumer.cursor.runs = left.runs;
            machine.writing.consumer.table.config = lease;
            machine.writing.consumer.table.len = 0;
            machine.writing.consumer.table.carried_len = left.carried_len;
            machine.writing.consumer.table.next_generation.0 = next;
            machine.writing.consumer.table.redeliveries_since_flush = 0;
            machine.writing.consumer.ceiling.0 = left.ceiling;
            machine.writing.consumer.next.number = left.number;
            machine.writing.consumer.next.block = left.block;
            machine.writing.consumer.area_len = size;
            machine.writing.consumer.settings = settings;
            *numbers = answers::of_done(Ok(()));
        }
        Err(refusal) => {
            *numbers = answers::of_refusal(refusal);
        }
    }
}

// A worker begins a checkpoint on the machine in its place: call 16.
pub fn ninotskev_begin(machine: &mut Machine, numbers: &mut Numbers, worker: u64)
    requires { Sound machine.old }
    ensures { (area out : List ℕ) → CallIs machine.old worker 16 0 0 0 0 area out numbers.new machine.new area out }
{
    lengths(&machine.writing);
    let done = begin_in_place(
        machine.phase,
        worker,
        machine.writing.consumer.cursor.committed,
        machine.writing.consumer.cursor.runs,
        machine.writing.consumer.table.len,
        machine.writing.consumer.table.carried_len,
        machine.writing.consumer.next.number,
        machine.writing.consumer.next.block,
        machine.writing.consumer.area_len,
        machine.writing.written,
        machine.writing.cursor_len,
        machine.writing.attempt_len,
        &machine.writing.consumer.settings.rights,
        &mut machine.writing.consumer.cursor.starts,
        &mut machine.writing.consumer.cursor.ends,
        &mut machine.writing.consumer.table.offsets,
        &mut machine.writing.consumer.table.slots,
        &mut machine.writing.consumer.table.deliveries,
        &mut machine.writing.consumer.table.carried_offsets,
        &mut machine.writing.consumer.table.carried_counts,
        &mut machine.writing.payload,
    );
    machine.phase = done.phase;
    machine.writing.written = done.written;
    machine.writing.cursor_len = done.cursor_len;
    machine.writing.attempt_len = done.attempt_len;
    *numbers = done.numbers;
}

// Makes the next block write of a checkpoint, into the lent area: call 17.
pub fn ninotskev_step(machine: &mut Machine, numbers: &mut Numbers, area: &mut [u8])
    requires { Sound machine.old }
    ensures { (out : List ℕ) → CallIs machine.old 0 17 0 0 0 0 area.old out numbers.new machine.new area.new out }
{
    let before = StepNumbers {
        written: machine.writing.written,
        ceiling: machine.writing.consumer.ceiling.0,
        redeliveries: machine.writing.consumer.table.redeliveries_since_flush,
        number: machine.writing.consumer.next.number,
        block: machine.writing.consumer.next.block,
    };
    let done = step_in_place(
        machine.phase,
        before,
        machine.writing.cursor_len,
        machine.writing.attempt_len,
        machine.writing.consumer.area_len,
        machine.writing.consumer.table.next_generation.0,
        &machine.writing.payload,
        area,
    );
    machine.phase = done.phase;
    machine.writing.written = done.left.written;
    machine.writing.consumer.ceiling.0 = done.left.ceiling;
    machine.writing.consumer.next.number = done.left.number;
    machine.writing.consumer.next.block = done.left.block;
    machine.writing.consumer.table.redeliveries_since_flush = done.left.redeliveries;
    *numbers = done.numbers;
}

// Whether a sync is due after the next step's write: 1 where a record is out and says so, else 0. It changes nothing.
pub fn ninotskev_sync_due(machine: &Machine) -> u64
    requires { Sound machine.now }
    ensures { result ≡ due_next (phase_of machine.now) }
{
    if machine.phase == 1 && machine.writing.sync_due() {
        1
    } else {
        0
    }
}

// A call of a worker on the state of the machine in its place.
pub fn ninotskev_ask(
    machine: &mut Machine,
    numbers: &mut Numbers,
    worker: u64,
    kind: u64,
    a: u64,
    b: u64,
    c: u64,
    d: u64,
    out: &mut [u64],
)
    requires { Sound machine.old }
    ensures { AskIs machine.old worker kind a b c d out.old numbers.new machine.new out.new }
{
    lengths(&machine.writing);
    let fixed = Fixed {
        config: machine.writing.consumer.table.config,
        hours: machine.writing.consumer.settings.hours,
        ceiling: machine.writing.consumer.ceiling.0,
        block: machine.writing.consumer.next.block,
        area_len: machine.writing.consumer.area_len,
        max_deliver: machine.writing.consumer.settings.delivery.max_deliver,
        backoff_len: machine.writing.consumer.settings.delivery.backoff_len,
        threshold: machine
            .writing
            .consumer
            .settings
            .delivery
            .attempts_flush_redeliveries,
    };
    let figures = Figures {
        committed: machine.writing.consumer.cursor.committed,
        runs: machine.writing.consumer.cursor.runs,
        len: machine.writing.consumer.table.len,
        carried_len: machine.writing.consumer.table.carried_len,
        next_generation: machine.writing.consumer.table.next_generation.0,
        redeliveries: machine.writing.consumer.table.redeliveries_since_flush,
    };
    let done = ask_in_place(
        machine.phase,
        worker,
        kind,
        a,
        b,
        c,
        d,
        fixed,
        figures,
        &mut machine.writing.consumer.cursor.starts,
        &mut machine.writing.consumer.cursor.ends,
        &mut machine.writing.consumer.table.offsets,
        &mut machine.writing.consumer.table.slots,
        &mut machine.writing.consumer.table.generations,
        &mut machine.writing.consumer.table.attempt_starts,
        &mut machine.writing.consumer.table.deadlines,
        &mut machine.writing.consumer.table.deliveries,
        &mut machine.writing.consumer.table.workers,
        &mut machine.writing.consumer.table.carried_offsets,
        &mut machine.writing.consumer.table.carried_counts,
        &machine.writing.consumer.settings.delivery.backoff_nanos,
        &mut machine.writing.consumer.settings.rights,
        out,
    );
    machine.writing.consumer.cursor.committed = done.figures.committed;
    machine.writing.consumer.cursor.runs = done.figures.runs;
    machine.writing.consumer.table.len = done.figures.len;
    machine.writing.consumer.table.carried_len = done.figures.carried_len;
    machine.writing.consumer.table.next_generation.0 = done.figures.next_generation;
    machine.writing.consumer.table.redeliveries_since_flush = done.figures.redeliveries;
    *numbers = done.numbers;
}

// Progress on the machine in its place: call 5 by itself. It is the call that a server makes most often, and this function reads only
// the parts that it looks at, and stores no number of the machine.
pub fn ninotskev_progress(
    machine: &mut Machine,
    numbers: &mut Numbers,
    worker: u64,
    offset: u64,
    generation: u64,
    now: u64,
)
    requires { Sound machine.old }
    ensures { (out : List ℕ) → AskIs machine.old worker 5 offset generation now 0 out numbers.new machine.new out }
{
    lengths(&machine.writing);
    let done = progress_in_place(
        machine.phase,
        worker,
        offset,
        generation,
        now,
        machine.writing.consumer.table.config,
        machine.writing.consumer.table.len,
        &machine.writing.consumer.settings.rights,
        &mut machine.writing.consumer.table.offsets,
        &mut machine.writing.consumer.table.slots,
        &mut machine.writing.consumer.table.generations,
        &mut machine.writing.consumer.table.attempt_starts,
        &mut machine.writing.consumer.table.deadlines,
        &mut machine.writing.consumer.table.deliveries,
        &mut machine.writing.consumer.table.workers,
    );
    *numbers = done;
}

// A worker's plan on the machine in its place: which of a list of offsets are settled, into a lent byte list. It changes no number of the
// machine.
pub fn ninotskev_plan(
    machine: &mut Machine,
    numbers: &mut Numbers,
    worker: u64,
    offsets: &[u64],
    out: &mut [u8],
)
    requires { Sound machine.old }
    ensures { PlanIs machine.old worker offsets.now out.old numbers.new machine.new out.new }
{
    lengths(&machine.writing);
    let done = plan_in_place(
        machine.phase,
        worker,
        machine.writing.consumer.cursor.committed,
        machine.writing.consumer.cursor.runs,
        &machine.writing.consumer.settings.rights,
        &mut machine.writing.consumer.cursor.starts,
        &mut machine.writing.consumer.cursor.ends,
        offsets,
        out,
    );
    *numbers = done;
}

// A worker's export of the machine in its place: the snapshots of the cursor and of all counts, each at the front of its own lent bytes.
// It changes no number of the machine.
pub fn ninotskev_export(
    machine: &mut Machine,
    numbers: &mut Numbers,
    worker: u64,
    cursor: &mut [u8],
    attempts: &mut [u8],
)
    requires { Sound machine.old }
    ensures { ExportIs machine.old worker (snapshots cursor.old attempts.old) numbers.new machine.new (snapshots cursor.new attempts.new) }
{
    lengths(&machine.writing);
    let done = export_in_place(
        machine.phase,
        worker,
        machine.writing.consumer.cursor.committed,
        machine.writing.consumer.cursor.runs,
        machine.writing.consumer.table.len,
        machine.writing.consumer.table.carried_len,
        &machine.writing.consumer.settings.rights,
        &mut machine.writing.consumer.cursor.starts,
        &mut machine.writing.consumer.cursor.ends,
        &mut machine.writing.consumer.table.offsets,
        &mut machine.writing.consumer.table.slots,
        &mut machine.writing.consumer.table.deliveries,
        &mut machine.writing.consumer.table.carried_offsets,
        &mut machine.writing.consumer.table.carried_counts,
        cursor,
        attempts,
    );
    *numbers = done;
}
