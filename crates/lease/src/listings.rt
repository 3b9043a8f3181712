// The lists that a table's words give and take: offsets whose leases have run out, and attempt counts by offset.
ghost use Rattle.std.specs.Prelude.{◌≡◌};
ghost use Rattle.types.specs.Keyed.{entries};
ghost use Rattle.types.specs.Table.{answer};
ghost use Rattle.types.specs.Refused.{as_is};
ghost use Rattle.types.specs.Lists.{listed, ListsOffsets, ListsCounts};
ghost use Rattle.tables.specs.Carried.{carried_in, Tidy};
ghost use Rattle.lease.specs.Counts.{resume_attempts, attempt_counts, all_attempt_counts};
ghost use Rattle.lease.specs.Rest.{expired};
ghost use Rattle.lease.specs.Answers.{resume_of};
ghost use Rattle.lease.specs.Helpers.{CarriesFrom, resumed_with};
ghost use Rattle.lease.specs.Layout.{table_in, view, Sound};
ghost use Rattle.lease.specs.InWords.{Answers, listed_into};

use crate::layout::{CARRIED_COUNTS, CARRIED_LEN, CARRIED_OFFSETS, LEN, OFFSETS, WORDS};
use crate::stored;
use tables::counts;
use tables::counts::Carried;
use types::lent::{AttemptCounts, OffsetList};
use types::limits::{CARRIED, COUNTS};
use types::refusals::Refusal;
use types::{Pair, lent};

// The offsets whose leases have run out, into a lent list: a claim of one would hand it out again. 20 where it doesn't fit.
pub fn expired(table: &[u64], now: u64, out: &mut [u64]) -> Result<usize, Refusal>
    requires { Sound table.now }
    ensures { answer (as_is result) out.new ≡ listed (expired (view table.now) now) out.old }
{
    lent::list_numbers(expired_list(table, now), out)
}

// The same in an array.
pub fn expired_list(table: &[u64], now: u64) -> OffsetList
    requires { Sound table.now }
    ensures { ListsOffsets result (expired (view table.now) now) }
{
    let len = table[LEN] as usize;
    let mut listed = [0u64; CARRIED];
    let mut n: usize = 0;
    for i in 0..len {
        let lease = stored::lease_at(table, i);
        if lease.deadline <= now {
            listed[n] = table[OFFSETS + i];
            n += 1;
        }
    }
    OffsetList {
        offsets: listed,
        len: n,
    }
}

// How often each message in flight was handed out, in arrays.
pub fn lease_counts(table: &[u64]) -> AttemptCounts
    requires { Sound table.now }
    ensures { ListsCounts result (attempt_counts (view table.now)) }
{
    let len = table[LEN] as usize;
    let mut offsets = [0u64; COUNTS];
    let mut attempts = [0u32; COUNTS];
    for i in 0..len {
        let lease = stored::lease_at(table, i);
        offsets[i] = table[OFFSETS + i];
        attempts[i] = lease.deliveries;
    }
    AttemptCounts {
        offsets,
        attempts,
        len,
    }
}

// The counts of all messages that were handed out and are not done, into two lent columns: those in flight and the carried ones, the
// larger count where an offset has both. 20 where a column is too short.
pub fn all_attempt_counts(
    table: &[u64],
    offsets: &mut [u64],
    attempts: &mut [u64],
) -> Result<usize, Refusal>
    requires { Sound table.now }
    ensures { answer (as_is result) (offsets.new, attempts.new) ≡ listed_into (all_attempt_counts (view table.now)) offsets.old attempts.old }
{
    let counts = all_counts(table);
    let n = counts.len;
    if offsets.len().min(attempts.len()) < n {
        return Err(Refusal::OutTooShort);
    }
    tables::copy(offsets, 0, &counts.offsets, n);
    stored::put_counts(attempts, &counts.attempts, n);
    Ok(n)
}

// The same in arrays.
pub fn all_counts(table: &[u64]) -> AttemptCounts
    requires { Sound table.now }
    ensures { ListsCounts result (all_attempt_counts (view table.now)) }
{
    let leased = lease_counts(table);
    let carried = carried_counts(table);
    counts::merged(leased, &carried.offsets, &carried.counts, carried.len)
}

// The counts that are carried, in arrays.
pub fn carried_counts(table: &[u64]) -> Carried
    requires { Sound table.now }
    ensures { CarriesFrom (table_in table.now) result }
{
    let len = table[CARRIED_LEN] as usize;
    let mut offsets = [0u64; CARRIED];
    let mut counts = [0u32; CARRIED];
    for i in 0..len {
        offsets[i] = table[CARRIED_OFFSETS + i];
        counts[i] = table[CARRIED_COUNTS + i] as u32;
    }
    Carried {
        offsets,
        counts,
        len,
        full: false,
    }
}

// Carries attempt counts over from before a restart, pairs in two columns: the next claim of an offset goes on from its count. A count of
// 0 says nothing, and of two counts for an offset the last stays. Refused where more than 128 would be carried (19).
pub fn resume_attempts(table: &mut [u64], offsets: &[u64], attempts: &[u32]) -> Result<(), Refusal>
    requires { Sound table.old }
    ensures { Answers (resume_of result) table.old table.new (resume_attempts (view table.old) (entries offsets.now attempts.now)) }
{
    let mut carried = carried_counts(table);
    for (offset, attempt) in offsets.iter().zip(attempts) {
        let pair = Pair {
            offset: *offset,
            attempt: *attempt,
        };
        carried = counts::carry_pair(carried, pair);
    }
    resume_with(table, carried)
}

// Stores the carried counts that pairs were taken into one by one, or refuses them (19).
pub fn resume_with(table: &mut [u64], carried: Carried) -> Result<(), Refusal>
    requires { Sound table.old × Tidy carried }
    ensures { Answers (resume_of result) table.old table.new (resumed_with (view table.old) (carried_in carried)) }
{
    if carried.full {
        return Err(Refusal::TooManyPairs);
    }
    let len = carried.len;
    tables::copy(
        &mut table[CARRIED_OFFSETS..CARRIED_COUNTS],
        0,
        &carried.offsets,
        len,
    );
    stored::put_counts(&mut table[CARRIED_COUNTS..WORDS], &carried.counts, len);
    table[CARRIED_LEN] = len as u64;
    Ok(())
}
