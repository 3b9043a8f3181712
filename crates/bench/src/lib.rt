// What the benchmarks run on this side: whole loops of calls, so that no call from another language is measured. Nothing
// else uses them.
#![tactic(auto)]

ghost use Rattle.std.specs.Prelude.{◌≡◌, ◌+◌, ◌≤◌};
ghost use Rattle.types.specs.Limits.{MAX};
ghost use Rattle.types.specs.Zipped.{zipped};
ghost use Rattle.cursor.specs.Ranges.{range};
ghost use Rattle.cursor.specs.Cursor.{resume, resume_with_ahead};
ghost use Rattle.cursor.specs.View.{view, Sound};
ghost use Rattle.lease.specs.State.{starting_at};
ghost use Rattle.lease.specs.Config.{default_config};
ghost use Rattle.lease.specs.Answers.{Becomes};
ghost use Rattle.bench.specs.Drivers.{rising, falling, acks, batches, claims, group, works, cursor_of, writes, stand_of};

use cursor::AckCursor;
use lease::{LeaseConfig, LeaseTable, LeaseToken};
use types::{Generation, Offset};

// Where a cursor and a lease table stand: the committed offset, the number of leases and the next generation.
#[repr(C)]
#[derive(Clone, Copy)]
pub struct Stand {
    pub committed: u64,
    pub held: u64,
    pub next: u64,
}

// Acks `count` offsets, from the last down to `base`.
fn ack_batch(start: AckCursor, base: u64, count: u64) -> AckCursor
    requires { Sound start × (base + count ≤ MAX) }
    ensures { Sound result × (view result ≡ acks (view start) (falling base count)) }
{
    let mut cursor = start;
    let mut left = count;
    while 0 < left {
        left -= 1;
        cursor = cursor.ack(Offset(base + left)).cursor;
    }
    cursor
}

// A table of the defaults with the offsets below n claimed.
fn claim_below(n: u32) -> LeaseTable
    ensures { Becomes result (claims (starting_at default_config 0) (rising 0 n)) }
{
    let mut table = LeaseTable::new(LeaseConfig::default());
    for i in 0..n as u64 {
        table = table.claim(0, Offset(i), 0).table;
    }
    table
}

// Acks the offsets below n in order. Answers where the cursor stands.
#[unsafe(no_mangle)]
pub extern "C" fn ninotskev_bench_acks_in_order(n: u64) -> u64
    ensures { result ≡ (acks (resume 0) (rising 0 n)).committed }
{
    let mut cursor = AckCursor::new();
    for i in 0..n {
        cursor = cursor.ack(Offset(i)).cursor;
    }
    cursor.committed
}

// Acks the offsets of n batches of 64, each batch from its last offset down. Answers where the cursor stands.
#[unsafe(no_mangle)]
pub extern "C" fn ninotskev_bench_acks_reversed(n: u32) -> u64
    ensures { result ≡ (batches (resume 0) 0 n).committed }
{
    let mut cursor = AckCursor::new();
    for i in 0..n as u64 {
        cursor = ack_batch(cursor, 64 * i, 64);
    }
    cursor.committed
}

// With `window` offsets claimed, claims one more and acks the oldest, n times over. Answers where table and cursor stand.
#[unsafe(no_mangle)]
pub extern "C" fn ninotskev_bench_claims_and_acks(window: u32, n: u32) -> Stand
    ensures { result ≡ stand_of (works window (group (claims (starting_at default_config 0) (rising 0 window)) (resume 0)) 0 n) }
{
    let ahead = window as u64;
    let mut table = claim_below(window);
    let mut cursor = AckCursor::new();
    for i in 0..n as u64 {
        let claimed = table.claim(0, Offset(i + ahead), 0);
        let token = LeaseToken {
            offset: Offset(i),
            generation: Generation(i),
        };
        let released = claimed.table.ack(token);
        table = released.table;
        let acked = cursor.ack(Offset(i));
        cursor = acked.cursor;
    }
    Stand {
        committed: cursor.committed,
        held: table.in_flight() as u64,
        next: table.next_generation.0,
    }
}

// Writes the snapshot of a cursor, given as in `ninotskev_encode_cursor`, n times to the front of lent bytes.
#[unsafe(no_mangle)]
pub extern "C" fn ninotskev_bench_encodes<'a>(
    committed: u64,
    starts: &'a [u64],
    ends: &'a [u64],
    out: &mut [u8],
    n: u32,
)
    ensures { out.new ≡ writes n (cursor_of (resume_with_ahead committed (zipped range starts.now ends.now))) out.old }
{
    let cursor = AckCursor::resume_with_columns(Offset(committed), starts, ends).unwrap_or(
        AckCursor::new(),
    );
    for i in 0..n {
        let _ = cursor.encode_snapshot(out, 0);
    }
}
