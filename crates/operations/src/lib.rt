// Lists of operations on a cursor, a lease table, a delivery config, a list of entries and bytes, in numbers: docs/ORACLE.md has
// them. For the comparison with the original, and for the program `modules`.
#![tactic(auto)]

ghost use Rattle.std.specs.Prelude.{◌≤◌, ◌+◌, ◌≡◌, length};
ghost use Rattle.cursor.specs.View as cursors;
ghost use Rattle.lease.specs.State as tables;
ghost use Rattle.delivery.specs.Config as configs;
ghost use Rattle.operations.specs.State.{ListReady, BytesReady, Ready};
ghost use Rattle.operations.specs.Runs.{six_at, RanIs};

use answer::Done;
use cursor::AckCursor;
use delivery::DeliveryConfig;
use lease::LeaseTable;
use state::{Bytes, List, Op, State};
use types::Offset;

mod answer;
mod digest;
mod on_bytes;
mod on_config;
mod on_cursor;
mod on_list;
mod on_table;
mod questions;
mod state;

// The operations that change the list.
fn list(op: Op, state: State) -> Done<List>
    requires { Ready state }
    ensures { ListReady result.left }
{
    let list = state.list;
    let table = state.table;
    match op.number {
        1 => on_list::left(state::empty(), answer::plain()),
        2 => on_list::add(list, op.w, op.x),
        3 => on_list::ranges(state.cursor, op.w, list),
        4 => on_list::decode(op, state.bytes, list),
        5 => on_list::counts(table.lease_counts()),
        6 => on_list::counts(table.all_counts()),
        7 => on_list::offsets(table.expired_list(op.w), op.x, list),
        _ => on_list::left(list, None),
    }
}

// The operations that change the cursor.
fn cursor(op: Op, state: State) -> Done<AckCursor>
    requires { Ready state }
    ensures { cursors.Sound result.left }
{
    let cursor = state.cursor;
    let offset = Offset(op.w);
    match op.number {
        21 => on_cursor::made(AckCursor::new()),
        22 => on_cursor::made(AckCursor::resume(offset)),
        23 => on_cursor::with(cursor, op.w, state.list),
        24 => on_cursor::acked(cursor.ack(offset)),
        25 => on_cursor::acked(cursor.ack_bounded(offset, op.x as usize)),
        26 => on_cursor::commit(cursor, op.w),
        27 => on_cursor::decode(cursor, op.w, op.x, state.bytes),
        _ => on_cursor::left(cursor, None),
    }
}

// The operations that change the delivery config.
fn config(op: Op, state: State) -> Done<DeliveryConfig>
    requires { Ready state }
    ensures { configs.Sound result.left }
{
    let config = state.config;
    match op.number {
        51 => on_config::new(config, op.w, op.x, state.list),
        52 => on_config::flush(config, op.w),
        _ => Done {
            left: config,
            answer: None,
        },
    }
}

// The state with another part.
fn with_list(mut state: State, done: Done<List>) -> Done<State>
    requires { Ready state × ListReady done.left }
    ensures { Ready result.left }
{
    state.list = done.left;
    Done {
        left: state,
        answer: done.answer,
    }
}

fn with_bytes(mut state: State, done: Done<Bytes>) -> Done<State>
    requires { Ready state × BytesReady done.left }
    ensures { Ready result.left }
{
    state.bytes = done.left;
    Done {
        left: state,
        answer: done.answer,
    }
}

fn with_cursor(mut state: State, done: Done<AckCursor>) -> Done<State>
    requires { Ready state × cursors.Sound done.left }
    ensures { Ready result.left }
{
    state.cursor = done.left;
    Done {
        left: state,
        answer: done.answer,
    }
}

fn with_table(mut state: State, done: Done<LeaseTable>) -> Done<State>
    requires { Ready state × tables.Sound done.left }
    ensures { Ready result.left }
{
    state.table = done.left;
    Done {
        left: state,
        answer: done.answer,
    }
}

fn with_config(mut state: State, done: Done<DeliveryConfig>) -> Done<State>
    requires { Ready state × configs.Sound done.left }
    ensures { Ready result.left }
{
    state.config = done.left;
    Done {
        left: state,
        answer: done.answer,
    }
}

// An operation, by the ten that its number is of: what it changes.
fn step(op: Op, state: State) -> Done<State>
    requires { Ready state }
    ensures { Ready result.left }
{
    match op.number / 10 {
        0 => with_list(state, list(op, state)),
        1 => with_bytes(
            state,
            on_bytes::change(op, state.cursor, state.list, state.bytes),
        ),
        2 => with_cursor(state, cursor(op, state)),
        3..=4 => with_table(state, on_table::change(op, state.table, state.list)),
        5 => with_config(state, config(op, state)),
        _ => Done {
            left: state,
            answer: questions::answer(op, state),
        },
    }
}

// The operation of five numbers.
fn op_at(ops: &[u64], at: usize) -> Op
    requires { at + 5 ≤ length ops.now }
{
    Op {
        number: ops[at],
        w: ops[at + 1],
        x: ops[at + 2],
        y: ops[at + 3],
        z: ops[at + 4],
    }
}

// The six numbers of an answer.
fn put(out: &mut [u64], at: usize, answer: [u64; 5], digest: u64)
    requires { (at + 6 ≤ length out.old) × (length answer ≡ 5) }
    ensures { out.new ≡ six_at at answer digest out.old }
{
    out[at..at + 5].copy_from_slice(&answer);
    out[at + 5] = digest;
}

// Runs a list from a fresh state: five numbers an operation, six an answer, as far as both go. Answers how many numbers of `out` were
// written; those behind them stay.
pub fn ninotskev_operations(ops: &[u64], out: &mut [u64]) -> usize
    ensures { (result ≤ length out.old) × RanIs ops.now out.old result out.new }
{
    let mut state = state::fresh();
    let mut from: usize = 0;
    let mut to: usize = 0;
    while 5 <= ops.len() - from {
        if out.len() - to < 6 {
            return to;
        }
        let op = op_at(ops, from);
        let at = to;
        from += 5;
        to += 6;
        let done = step(op, state);
        state = done.left;
        let answer = answer::in_numbers(done.answer);
        put(out, at, answer, u64::from(digest::digest(state)));
    }
    to
}
