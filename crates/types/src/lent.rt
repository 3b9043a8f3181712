// Lists of records into lent memory, filled from the first place on: the answer is how many places were filled, later places stay,
// and a list that doesn't fit is refused with nothing changed (20). The members come by value, as numbers in arrays.
ghost use Rattle.std.specs.Prelude.{◌≡◌, ◌<◌, min, length, get_or};
ghost use Rattle.types.specs.Table.{answer};
ghost use Rattle.types.specs.Refused.{as_is};
ghost use Rattle.types.specs.Lists.{listed, roomFor, counted, numbers_of, offsets_in, entry_of, entries_of, counts_in};
ghost use Rattle.types.specs.Keyed.{entry};

use crate::limits::{CARRIED, COUNTS};
use crate::refusals::Refusal;
use crate::{Offset, Pair};

// Offsets, in the first `len` places.
#[repr(C)]
#[derive(Clone, Copy)]
pub struct OffsetList {
    pub offsets: [u64; CARRIED],
    pub len: usize,
}

// Attempt counts by offset: the offsets in one array, their counts at the same places of the other, of which the first `len`
// are in use. A lease table has at most 192.
#[repr(C)]
#[derive(Clone, Copy)]
pub struct AttemptCounts {
    pub offsets: [u64; COUNTS],
    pub attempts: [u32; COUNTS],
    pub len: usize,
}

// Whether the first `len` places of an array, or all of its places where they are fewer, fit into a list of some length.
pub fn room_for(len: usize, places: usize, room: usize) -> Result<usize, Refusal>
    ensures { as_is result ≡ roomFor (min len places) room }
{
    let n = len.min(places);
    if room < n {
        return Err(Refusal::OutTooShort);
    }
    Ok(n)
}

// How many places an answer fills.
pub fn count_of(outcome: Result<usize, Refusal>) -> usize
    ensures { result ≡ counted (as_is outcome) }
{
    outcome.unwrap_or(0)
}

// Lists offsets.
pub fn list_offsets(list: OffsetList, out: &mut [Offset]) -> Result<usize, Refusal>
    ensures { answer (as_is result) (numbers_of out.new) ≡ listed (offsets_in list) (numbers_of out.old) }
{
    let n = offsets_fit(list, out.len())?;
    for i in 0..n {
        out[i] = offset_at(list, i);
    }
    Ok(n)
}

// Whether offsets fit into a list of some length, and the one at a place.
fn offsets_fit(list: OffsetList, room: usize) -> Result<usize, Refusal>
    ensures { as_is result ≡ roomFor (length (offsets_in list)) room }
{
    room_for(list.len, CARRIED, room)
}

fn offset_at(list: OffsetList, at: usize) -> Offset
    requires { at < length (offsets_in list) }
    ensures { result.0 ≡ get_or (offsets_in list) at 0 }
{
    Offset(list.offsets[at])
}

// Lists offsets as numbers, for callers whose lists are of numbers.
pub fn list_numbers(list: OffsetList, out: &mut [u64]) -> Result<usize, Refusal>
    ensures { answer (as_is result) out.new ≡ listed (offsets_in list) out.old }
{
    let n = room_for(list.len, CARRIED, out.len())?;
    for i in 0..n {
        out[i] = list.offsets[i];
    }
    Ok(n)
}

// Lists attempt counts as pairs.
pub fn list_pairs(counts: AttemptCounts, out: &mut [Pair]) -> Result<usize, Refusal>
    ensures { answer (as_is result) (entries_of out.new) ≡ listed (counts_in counts) (entries_of out.old) }
{
    let n = counts_fit(counts, out.len())?;
    for i in 0..n {
        out[i] = pair_at(counts, i);
    }
    Ok(n)
}

// Whether attempt counts fit into a list of some length, and the one at a place.
fn counts_fit(counts: AttemptCounts, room: usize) -> Result<usize, Refusal>
    ensures { as_is result ≡ roomFor (length (counts_in counts)) room }
{
    room_for(counts.len, COUNTS, room)
}

fn pair_at(counts: AttemptCounts, at: usize) -> Pair
    requires { at < length (counts_in counts) }
    ensures { entry_of result ≡ get_or (counts_in counts) at (entry 0 0) }
{
    Pair {
        offset: counts.offsets[at],
        attempt: counts.attempts[at],
    }
}
