// The operations that change nothing.
ghost use Rattle.cursor.specs.View as cursors;
ghost use Rattle.lease.specs.State as tables;
ghost use Rattle.delivery.specs.Config as configs;
ghost use Rattle.operations.specs.State.{BytesReady, Ready};

use crate::answer;
use crate::answer::Answer;
use crate::on_table::token;
use crate::state::{Bytes, Op, State};
use cursor::AckCursor;
use delivery::{DeliveryConfig, Disposition};
use lease::LeaseTable;
use types::Offset;

// offset next X
fn next(x: u64) -> Answer {
    answer::maybe(Offset(x).checked_next().map(|offset| offset.0))
}

// bytes crc FROM TO
fn check(from: u64, to: u64, bytes: Bytes) -> Answer
    requires { BytesReady bytes }
{
    let part = bytes.part(from, to)?;
    answer::value(u64::from(crc::crc32c(part)))
}

// cursor acked X, committed, len, runs
fn of_cursor(op: Op, cursor: AckCursor) -> Answer
    requires { cursors.Sound cursor }
{
    match op.number {
        63 => answer::yes(cursor.is_acked(Offset(op.w))),
        64 => answer::value(cursor.committed().get()),
        65 => answer::value(cursor.ahead_len()),
        _ => answer::value(cursor.ahead_runs() as u64),
    }
}

// lease redeliveries, inflight, claimable X NOW, deliveries X G, holds X G NOW, pending X NOW
fn of_table(op: Op, table: LeaseTable) -> Answer
    requires { tables.Sound table }
{
    let offset = Offset(op.w);
    let held = token(op.w, op.x);
    match op.number {
        67 => answer::value(u64::from(table.redeliveries_since_flush())),
        68 => answer::value(table.in_flight() as u64),
        69 => answer::yes(table.is_claimable(offset, op.x)),
        70 => answer::maybe(table.deliveries(held).map(|n| u64::from(n))),
        71 => answer::yes(table.holds_active(held, op.y)),
        _ => answer::maybe(
            table
                .pending_redelivery_attempt(offset, op.x)
                .map(|n| u64::from(n)),
        ),
    }
}

// delivery threshold, limit, unlimited
fn of_config(number: u64, config: DeliveryConfig) -> Answer {
    match number {
        73 => answer::value(u64::from(config.attempts_flush_redeliveries())),
        74 => answer::value(u64::from(config.max_deliver())),
        _ => answer::yes(config.allows_unlimited()),
    }
}

// delivery disposition K, backoff K, delay K CAP, explicit K D CAP
fn of_count(op: Op, config: DeliveryConfig) -> Answer
    requires { configs.Sound config }
{
    let k = u32::try_from(op.w).ok()?;
    match op.number {
        76 => answer::yes(matches!(config.disposition(k), Disposition::DeadLetter)),
        77 => answer::value(config.nack_backoff(k)),
        78 => answer::value(config.effective_nack_delay(k, None, op.x)),
        _ => answer::value(config.effective_nack_delay(k, Some(op.x), op.y)),
    }
}

// All of them.
pub fn answer(op: Op, state: State) -> Answer
    requires { Ready state }
{
    match op.number {
        61 => next(op.w),
        62 => check(op.w, op.x, state.bytes),
        63..=66 => of_cursor(op, state.cursor),
        67..=72 => of_table(op, state.table),
        73..=75 => of_config(op.number, state.config),
        76..=79 => of_count(op, state.config),
        _ => None,
    }
}
