// Calls on the parts of a machine that lies in another's memory: its numbers come by value and go back beside the answer, its columns
// are lent and changed where they lie.
ghost use Rattle.cursor.specs.View.{ack_cursor};
ghost use Rattle.lease.specs.Parts.{listing_all};
ghost use Rattle.consumer.specs.Export.{snapshots};
ghost use Rattle.consumer.specs.Parts.{progressing, planning, exporting};
ghost use Rattle.checkpoint.specs.Parts.{beginning, parts};
ghost use Rattle.machine.specs.Parts.{consumer_of};
ghost use Rattle.server.specs.Parts.{AskableIn, AskedIn, ProgressedIn, PlannedIn, ExportedIn, to_begin, Beginnable, BegunOn, Steppable, SteppedOn};

use crate::kinds;
use answers::Numbers;
use checkpoint::counts::Columns;
use checkpoint::in_place::StepNumbers;
use lease::LeaseConfig;
use machine::in_place::{Figures, Fixed};
use types::limits::{CARRIED, LEASES, RANGES, WORKERS};

// What a call on the state answers, and the numbers of the machine that it changes.
#[derive(Clone, Copy)]
pub struct AskDone {
    pub numbers: Numbers,
    pub figures: Figures,
}

// A call of a worker on the state, where it can be called: that is phase 0. The rights are read only; they are lent by themselves, as
// the columns are, since the machine's function takes them and the backoffs for one lifetime.
pub fn ask_in_place(
    phase: u64,
    worker: u64,
    kind: u64,
    a: u64,
    b: u64,
    c: u64,
    d: u64,
    fixed: Fixed,
    figures: Figures,
    starts: &mut [u64; RANGES],
    ends: &mut [u64; RANGES],
    offsets: &mut [u64; LEASES],
    slots: &mut [u32; LEASES],
    generations: &mut [u64; LEASES],
    attempt_starts: &mut [u64; LEASES],
    deadlines: &mut [u64; LEASES],
    deliveries: &mut [u32; LEASES],
    workers: &mut [u32; LEASES],
    carried_offsets: &mut [u64; CARRIED],
    carried_counts: &mut [u32; CARRIED],
    backoff_nanos: &[u64; 16],
    rights: &mut [u8; WORKERS],
    out: &mut [u64],
) -> AskDone
    requires { AskableIn phase (consumer_of fixed figures starts.old ends.old offsets.old slots.old generations.old attempt_starts.old deadlines.old deliveries.old workers.old carried_offsets.old carried_counts.old backoff_nanos.now rights.old) }
    ensures { AskedIn phase (consumer_of fixed figures starts.old ends.old offsets.old slots.old generations.old attempt_starts.old deadlines.old deliveries.old workers.old carried_offsets.old carried_counts.old backoff_nanos.now rights.old) worker kind a b c d out.old
        result.numbers (consumer_of fixed result.figures starts.new ends.new offsets.new slots.new generations.new attempt_starts.new deadlines.new deliveries.new workers.new carried_offsets.new carried_counts.new backoff_nanos.now rights.new) out.new }
{
    if phase != 0 {
        return AskDone {
            numbers: Numbers::NOT_NOW,
            figures,
        };
    }
    let asked = kinds::ask_of(kind, a, b, c, d);
    let Some(ask) = asked else {
        return AskDone {
            numbers: Numbers::NOT_NOW,
            figures,
        };
    };
    let done = machine::in_place::ask_in_place(
        worker,
        ask,
        fixed,
        figures,
        starts,
        ends,
        offsets,
        slots,
        generations,
        attempt_starts,
        deadlines,
        deliveries,
        workers,
        carried_offsets,
        carried_counts,
        backoff_nanos,
        rights,
        out,
    );
    let answer = done.answer;
    let after = done.figures;
    AskDone {
        numbers: answers::of_ask(answer, out),
        figures: after,
    }
}

// Progress, where the state can be called: that is phase 0. All columns but the deadlines are read only; each is lent by itself.
pub fn progress_in_place(
    phase: u64,
    worker: u64,
    offset: u64,
    generation: u64,
    now: u64,
    config: LeaseConfig,
    len: usize,
    rights: &[u8; WORKERS],
    offsets: &mut [u64; LEASES],
    slots: &mut [u32; LEASES],
    generations: &mut [u64; LEASES],
    attempt_starts: &mut [u64; LEASES],
    deadlines: &mut [u64; LEASES],
    deliveries: &mut [u32; LEASES],
    workers: &mut [u32; LEASES],
) -> Numbers
    requires { AskableIn phase (progressing rights.now config len offsets.old slots.old generations.old attempt_starts.old deadlines.old deliveries.old workers.old) }
    ensures { ProgressedIn phase (progressing rights.now config len offsets.old slots.old generations.old attempt_starts.old deadlines.old deliveries.old workers.old) worker offset generation now
        result (progressing rights.now config len offsets.new slots.new generations.new attempt_starts.new deadlines.new deliveries.new workers.new) }
{
    if phase != 0 {
        return Numbers::NOT_NOW;
    }
    let answer = consumer::in_place::progress_in_place(
        config,
        len,
        worker,
        offset,
        generation,
        now,
        rights,
        offsets,
        slots,
        generations,
        attempt_starts,
        deadlines,
        deliveries,
        workers,
    );
    answers::of_value(answer)
}

// A plan, where the state can be called: that is phase 0. The columns are read only; each is lent by itself.
pub fn plan_in_place(
    phase: u64,
    worker: u64,
    committed: u64,
    runs: usize,
    rights: &[u8; WORKERS],
    starts: &mut [u64; RANGES],
    ends: &mut [u64; RANGES],
    offsets: &[u64],
    out: &mut [u8],
) -> Numbers
    requires { AskableIn phase (planning rights.now (ack_cursor committed starts.old ends.old runs)) }
    ensures { PlannedIn phase (planning rights.now (ack_cursor committed starts.old ends.old runs)) worker offsets.now out.old
        result (planning rights.now (ack_cursor committed starts.new ends.new runs)) out.new }
{
    if phase != 0 {
        return Numbers::NOT_NOW;
    }
    let answer = consumer::plans::plan_in_place(
        committed, runs, worker, rights, starts, ends, offsets, out,
    );
    answers::of_plan(answer, out)
}

// An export, where the state can be called: that is phase 0. The columns are read only; each is lent by itself.
pub fn export_in_place(
    phase: u64,
    worker: u64,
    committed: u64,
    runs: usize,
    len: usize,
    carried_len: usize,
    rights: &[u8; WORKERS],
    starts: &mut [u64; RANGES],
    ends: &mut [u64; RANGES],
    offsets: &mut [u64; LEASES],
    slots: &mut [u32; LEASES],
    deliveries: &mut [u32; LEASES],
    carried_offsets: &mut [u64; CARRIED],
    carried_counts: &mut [u32; CARRIED],
    cursor: &mut [u8],
    attempts: &mut [u8],
) -> Numbers
    requires { AskableIn phase (exporting rights.now (ack_cursor committed starts.old ends.old runs) (listing_all len carried_len offsets.old slots.old deliveries.old carried_offsets.old carried_counts.old)) }
    ensures { ExportedIn phase (exporting rights.now (ack_cursor committed starts.old ends.old runs) (listing_all len carried_len offsets.old slots.old deliveries.old carried_offsets.old carried_counts.old))
        worker (snapshots cursor.old attempts.old) result
        (exporting rights.now (ack_cursor committed starts.new ends.new runs) (listing_all len carried_len offsets.new slots.new deliveries.new carried_offsets.new carried_counts.new))
        (snapshots cursor.new attempts.new) }
{
    if phase != 0 {
        return Numbers::NOT_NOW;
    }
    let answer = consumer::snapshots::export_in_place(
        committed,
        runs,
        len,
        carried_len,
        worker,
        rights,
        starts,
        ends,
        offsets,
        slots,
        deliveries,
        carried_offsets,
        carried_counts,
        cursor,
        attempts,
    );
    answers::of_export(answer, cursor, attempts)
}

// What a begin answers, and the numbers of the machine that it changes.
#[derive(Clone, Copy)]
pub struct BeginDone {
    pub numbers: Numbers,
    pub phase: u64,
    pub written: usize,
    pub cursor_len: usize,
    pub attempt_len: usize,
}

// What a step answers, and the numbers of the machine that it changes.
#[derive(Clone, Copy)]
pub struct StepDone {
    pub numbers: Numbers,
    pub phase: u64,
    pub left: StepNumbers,
}

// Call 16, where a checkpoint can be begun: that is phase 0. The columns are read only; each is lent by itself.
pub fn begin_in_place(
    phase: u64,
    worker: u64,
    committed: u64,
    runs: usize,
    len: usize,
    carried_len: usize,
    number: u64,
    block: usize,
    area_len: usize,
    written: usize,
    cursor_len: usize,
    attempt_len: usize,
    rights: &[u8; WORKERS],
    starts: &mut [u64; RANGES],
    ends: &mut [u64; RANGES],
    offsets: &mut [u64; LEASES],
    slots: &mut [u32; LEASES],
    deliveries: &mut [u32; LEASES],
    carried_offsets: &mut [u64; CARRIED],
    carried_counts: &mut [u32; CARRIED],
    payload: &mut [u8; 3606],
) -> BeginDone
    requires { Beginnable phase (to_begin written cursor_len attempt_len payload.old (beginning rights.now (ack_cursor committed starts.old ends.old runs) (listing_all len carried_len offsets.old slots.old deliveries.old carried_offsets.old carried_counts.old) number block area_len)) }
    ensures { BegunOn phase (to_begin written cursor_len attempt_len payload.old (beginning rights.now (ack_cursor committed starts.old ends.old runs) (listing_all len carried_len offsets.old slots.old deliveries.old carried_offsets.old carried_counts.old) number block area_len)) worker
        result.numbers result.phase (to_begin result.written result.cursor_len result.attempt_len payload.new (beginning rights.now (ack_cursor committed starts.new ends.new runs) (listing_all len carried_len offsets.new slots.new deliveries.new carried_offsets.new carried_counts.new) number block area_len)) }
{
    if phase != 0 {
        return BeginDone {
            numbers: Numbers::NOT_NOW,
            phase,
            written,
            cursor_len,
            attempt_len,
        };
    }
    let counts = Columns {
        len,
        carried_len,
        offsets,
        slots,
        deliveries,
        carried_offsets,
        carried_counts,
    };
    let begun = checkpoint::in_place::begin_in_place(
        committed, runs, counts, number, block, area_len, worker, rights, starts, ends, payload,
    );
    match begun {
        Ok(begun) => BeginDone {
            numbers: answers::of_count(Ok(begun.writes)),
            phase: 1,
            written: 0,
            cursor_len: begun.cursor_len,
            attempt_len: begun.attempt_len,
        },
        Err(refusal) => BeginDone {
            numbers: answers::of_refusal(refusal),
            phase,
            written,
            cursor_len,
            attempt_len,
        },
    }
}

// Call 17, where there is a record to step: that is phase 1.
pub fn step_in_place(
    phase: u64,
    before: StepNumbers,
    cursor_len: usize,
    attempt_len: usize,
    area_len: usize,
    next_generation: u64,
    payload: &[u8; 3606],
    area: &mut [u8],
) -> StepDone
    requires { Steppable phase (parts before.written cursor_len attempt_len area_len next_generation before.ceiling before.redeliveries before.number before.block payload.now) }
    ensures { SteppedOn phase (parts before.written cursor_len attempt_len area_len next_generation before.ceiling before.redeliveries before.number before.block payload.now) area.old
        result.numbers result.phase (parts result.left.written cursor_len attempt_len area_len next_generation result.left.ceiling result.left.redeliveries result.left.number result.left.block payload.now) area.new }
{
    if phase != 1 {
        return StepDone {
            numbers: Numbers::NOT_NOW,
            phase,
            left: before,
        };
    }
    let stepped = checkpoint::in_place::step_in_place(
        before,
        cursor_len,
        attempt_len,
        area_len,
        next_generation,
        payload,
        area,
    );
    match stepped {
        Ok(stepped) => StepDone {
            numbers: answers::of_step(Ok(stepped.wrote)),
            phase: machine::phase_after(Ok(stepped.wrote)),
            left: stepped.numbers,
        },
        Err(refusal) => StepDone {
            numbers: answers::of_refusal(refusal),
            phase,
            left: before,
        },
    }
}
