// Both snapshots of a consumer, as the original reads them: the cursor's, and that of all attempt counts in version 1.
ghost use Rattle.std.specs.Prelude.{◌≡◌, ◌≤◌};
ghost use Rattle.types.specs.Table.{answer};
ghost use Rattle.types.specs.Lists.{counts_in};
ghost use Rattle.cursor.specs.View.{ack_cursor};
ghost use Rattle.attempt.specs.Snapshot.{encode_into};
ghost use Rattle.types.specs.Refused.{as_is};
ghost use Rattle.lease.specs.Parts.{listing_all};
ghost use Rattle.consumer.specs.Export.{snapshots};
ghost use Rattle.consumer.specs.Questions.{export};
ghost use Rattle.consumer.specs.View.{view, Sound};
ghost use Rattle.consumer.specs.Parts.{exporting, encoding, Exportable, Exports, ExportsIn, EncodesIn};

use crate::rights::LOOK;
use crate::{Consumer, rights};
use attempt::Version;
use cursor::AckCursor;
use cursor::in_place::encode_in_place;
use lease::in_place::all_counts_in_place;
use types::lent::AttemptCounts;
use types::limits::{CARRIED, LEASES, RANGES, WORKERS};
use types::refusals::Refusal;

// How many bytes each snapshot of an export has.
#[derive(Clone, Copy, Debug, PartialEq, Eq)]
pub struct Lengths {
    pub cursor_len: u16,
    pub attempt_len: u16,
}

impl Consumer {
    // A worker's export: each snapshot at the front of its own lent bytes. 38, 39, and 20 where one of them doesn't fit; then neither is
    // written.
    pub fn export(
        self,
        worker: u64,
        cursor: &mut [u8],
        attempts: &mut [u8],
    ) -> Result<Lengths, Refusal>
        requires { Sound self }
        ensures { Exports (view self) (export (view self) worker (snapshots cursor.old attempts.old)) (snapshots cursor.old attempts.old) result (snapshots cursor.new attempts.new) }
    {
        export_in_place(
            self.cursor.committed,
            self.cursor.runs,
            self.table.len,
            self.table.carried_len,
            worker,
            &self.settings.rights,
            &self.cursor.starts,
            &self.cursor.ends,
            &self.table.offsets,
            &self.table.slots,
            &self.table.deliveries,
            &self.table.carried_offsets,
            &self.table.carried_counts,
            cursor,
            attempts,
        )
    }
}

// The same by the parts of the consumer that this looks at.
pub fn export_in_place<'a>(
    committed: u64,
    runs: usize,
    len: usize,
    carried_len: usize,
    worker: u64,
    rights: &'a [u8; WORKERS],
    starts: &'a [u64; RANGES],
    ends: &'a [u64; RANGES],
    offsets: &'a [u64; LEASES],
    slots: &'a [u32; LEASES],
    deliveries: &'a [u32; LEASES],
    carried_offsets: &'a [u64; CARRIED],
    carried_counts: &'a [u32; CARRIED],
    cursor: &mut [u8],
    attempts: &mut [u8],
) -> Result<Lengths, Refusal>
    requires { Exportable (exporting rights.now (ack_cursor committed starts.now ends.now runs) (listing_all len carried_len offsets.now slots.now deliveries.now carried_offsets.now carried_counts.now)) }
    ensures { ExportsIn result (exporting rights.now (ack_cursor committed starts.now ends.now runs) (listing_all len carried_len offsets.now slots.now deliveries.now carried_offsets.now carried_counts.now))
        worker (snapshots cursor.old attempts.old) (snapshots cursor.new attempts.new) }
{
    rights::permission_of(rights, worker, LOOK)?;
    encode_both(
        committed,
        runs,
        len,
        carried_len,
        starts,
        ends,
        offsets,
        slots,
        deliveries,
        carried_offsets,
        carried_counts,
        cursor,
        attempts,
    )
}

// The same where the worker may look. Both lengths are tested before a byte is written (20).
fn encode_both<'a>(
    committed: u64,
    runs: usize,
    len: usize,
    carried_len: usize,
    starts: &'a [u64; RANGES],
    ends: &'a [u64; RANGES],
    offsets: &'a [u64; LEASES],
    slots: &'a [u32; LEASES],
    deliveries: &'a [u32; LEASES],
    carried_offsets: &'a [u64; CARRIED],
    carried_counts: &'a [u32; CARRIED],
    cursor: &mut [u8],
    attempts: &mut [u8],
) -> Result<Lengths, Refusal>
    requires { Exportable (encoding (ack_cursor committed starts.now ends.now runs) (listing_all len carried_len offsets.now slots.now deliveries.now carried_offsets.now carried_counts.now)) }
    ensures { EncodesIn result (encoding (ack_cursor committed starts.now ends.now runs) (listing_all len carried_len offsets.now slots.now deliveries.now carried_offsets.now carried_counts.now))
        (snapshots cursor.old attempts.old) (snapshots cursor.new attempts.new) }
{
    let counts = all_counts_in_place(
        len,
        carried_len,
        offsets,
        slots,
        deliveries,
        carried_offsets,
        carried_counts,
    );
    let cursor_len = AckCursor::snapshot_len(runs);
    let attempt_len = attempt::snapshot_len(counts.len);
    if cursor.len() < cursor_len {
        return Err(Refusal::OutTooShort);
    }
    if attempts.len() < attempt_len {
        return Err(Refusal::OutTooShort);
    }
    let _ = encode_in_place(committed, starts, ends, runs, cursor, 0);
    let _ = encode_counts(counts, attempts);
    Ok(Lengths {
        cursor_len: cursor_len as u16,
        attempt_len: attempt_len as u16,
    })
}

// Writes the snapshot of counts, in version 1, at the front of lent bytes.
fn encode_counts(counts: AttemptCounts, out: &mut [u8]) -> Result<usize, Refusal>
    requires { counts.len ≤ 192 }
    ensures { answer (as_is result) out.new ≡ encode_into (counts_in counts) 0 out.old }
{
    let offsets = counts.offsets;
    let attempts = counts.attempts;
    let n = counts.len;
    attempt::encode_columns(Version::One, &offsets[..n], &attempts[..n], out, 0)
}
