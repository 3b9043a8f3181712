// The digest of the state: the check of its numbers, each as 8 bytes, and of its bytes behind them.
ghost use Rattle.operations.specs.State.{BytesReady, Ready};

use crate::state::{Bytes, List, State};
use cursor::AckCursor;
use delivery::DeliveryConfig;
use lease::in_place::lease_at;
use lease::{Lease, LeaseTable};
use types::limits::LEASES;

// A number more.
fn number(before: u32, n: u64) -> u32 {
    let mut bytes = [0u8; 8];
    let _ = raw::write_u64(&mut bytes, 0, n);
    crc::crc32c_append(before, &bytes)
}

// Two numbers more.
fn pair(before: u32, a: u64, b: u64) -> u32 {
    let first = number(before, a);
    number(first, b)
}

// The first n places of two columns, place by place.
fn entries<'a>(before: u32, a: &'a [u64], b: &'a [u64], n: usize) -> u32 {
    let mut check = before;
    for (x, y) in a.iter().zip(b).take(n) {
        check = pair(check, *x, *y);
    }
    check
}

// Committed, how many ranges there are, and each range.
fn cursor(before: u32, cursor: AckCursor) -> u32 {
    let n = cursor.runs;
    let check = pair(before, cursor.committed, n as u64);
    entries(check, &cursor.starts, &cursor.ends, n)
}

fn lease(before: u32, offset: u64, lease: Lease) -> u32 {
    let token = pair(before, offset, lease.generation.0);
    let times = pair(token, lease.attempt_start, lease.deadline);
    number(times, u64::from(lease.deliveries))
}

// The settings of a lease table, how many leases there are, and each lease.
fn leases(before: u32, table: LeaseTable) -> u32 {
    let n = table.len;
    let settings = pair(
        before,
        table.config.visibility_nanos,
        table.config.hard_cap_nanos,
    );
    let mut check = number(settings, n as u64);
    for i in 0..n.min(LEASES) {
        let held = lease_at(
            i,
            &table.slots,
            &table.generations,
            &table.attempt_starts,
            &table.deadlines,
            &table.deliveries,
            &table.workers,
        );
        check = lease(check, table.offsets[i], held);
    }
    check
}

// The next generation, how many counts are carried, and each count.
fn carried(before: u32, table: LeaseTable) -> u32 {
    let n = table.carried_len;
    let mut check = pair(before, table.next_generation.0, n as u64);
    for (offset, count) in table
        .carried_offsets
        .iter()
        .zip(&table.carried_counts)
        .take(n)
    {
        check = pair(check, *offset, u64::from(*count));
    }
    check
}

// The limit, the opt-in, how many backoffs there are, and each backoff.
fn policy(before: u32, config: DeliveryConfig) -> u32 {
    let n = config.backoff_len;
    let limit = pair(
        before,
        u64::from(config.max_deliver),
        u64::from(config.allow_unlimited),
    );
    let mut check = number(limit, n as u64);
    for nanos in config.backoff_nanos.iter().take(n) {
        check = number(check, *nanos);
    }
    check
}

// How many entries there are, and each entry.
fn list(before: u32, list: List) -> u32 {
    let check = number(before, list.n as u64);
    entries(check, &list.a, &list.b, list.n)
}

// How many bytes there are, and the bytes.
fn bytes(before: u32, bytes: Bytes) -> u32
    requires { BytesReady bytes }
{
    let count = number(before, bytes.n as u64);
    crc::crc32c_append(count, &bytes.all[..bytes.n])
}

// All of it.
pub fn digest(state: State) -> u32
    requires { Ready state }
{
    let table = state.table;
    let config = state.config;
    let settled = cursor(0, state.cursor);
    let leased = carried(leases(settled, table), table);
    let counted = number(leased, u64::from(table.redeliveries_since_flush));
    let configured = policy(counted, config);
    let flushed = number(configured, u64::from(config.attempts_flush_redeliveries));
    let listed = list(flushed, state.list);
    bytes(listed, state.bytes)
}
