// A whole plan in one walk: a list of offsets that don't fall, each answered settled or open into a lent byte list, and the number of
// looks that this took. The walk goes over the ranges once, since an offset is never below the one before it.
ghost use Rattle.std.specs.Prelude.{◌≡◌, length};
ghost use Rattle.types.specs.Refusal.{Falling};
ghost use Rattle.types.specs.Refused.{as_is, option_of};
ghost use Rattle.types.specs.Table.{first, answer};
ghost use Rattle.cursor.specs.View.{ack_cursor, view, Sound, Whole};
ghost use Rattle.cursor.specs.Plan.{plan, pair_rows, looks, bytes_from, StepIs};

use crate::AckCursor;
use types::refusals::Refusal;

impl AckCursor {
    // Answers each offset of a list, 1 where it is acked and 0 where it isn't, and how many comparisons of an offset with a range that
    // took. Refused, with the lent list as it was, where the two lists are of unequal length (36), then where an offset is below the
    // one before it (37).
    pub fn plan(self, offsets: &[u64], out: &mut [u8]) -> Result<usize, Refusal>
        requires { Sound self }
        ensures { answer (as_is result) out.new ≡ plan (view self) offsets.now out.old }
    {
        plan_in_place(
            self.committed,
            &self.starts,
            &self.ends,
            self.runs,
            offsets,
            out,
        )
    }
}

// `plan` on the parts of a cursor. The number of looks is at most that of the offsets and the ranges together, and offsets in memory are
// fewer than 2^60, so it is no number that a usize couldn't hold.
pub fn plan_in_place<'a>(
    committed: u64,
    starts: &'a [u64],
    ends: &'a [u64],
    runs: usize,
    offsets: &[u64],
    out: &mut [u8],
) -> Result<usize, Refusal>
    requires { Whole (ack_cursor committed starts.now ends.now runs) }
    ensures { answer (as_is result) out.new ≡ plan (view (ack_cursor committed starts.now ends.now runs)) offsets.now out.old }
{
    if offsets.len() != out.len() {
        return Err(Refusal::UnequalLengths);
    }
    if let Some(place) = first_fall(offsets) {
        return Err(Refusal::Falling { place });
    }
    Ok(answer_all(committed, starts, ends, runs, offsets, out))
}

// The place of the first offset that is below the one before it, from 0.
fn first_fall(offsets: &[u64]) -> Option<usize>
    ensures { option_of Falling result ≡ first (pair_rows offsets.now) }
{
    let mut before: u64 = 0;
    for (i, offset) in offsets.iter().enumerate() {
        if *offset < before {
            return Some(i);
        }
        before = *offset;
    }
    None
}

// The walk: fills the list, and answers how many looks that took.
fn answer_all<'a>(
    committed: u64,
    starts: &'a [u64],
    ends: &'a [u64],
    runs: usize,
    offsets: &[u64],
    out: &mut [u8],
) -> usize
    requires { Whole (ack_cursor committed starts.now ends.now runs) × (length offsets.now ≡ length out.old) }
    ensures { (result ≡ looks (view (ack_cursor committed starts.now ends.now runs)) offsets.now) × (out.new ≡ bytes_from committed (view (ack_cursor committed starts.now ends.now runs)).ahead offsets.now) }
{
    let n = offsets.len();
    let mut at: usize = 0;
    let mut looks: usize = 0;
    for i in 0..n {
        let step = step_to(committed, starts, ends, runs, at, offsets[i]);
        at = step.at;
        looks += step.looks;
        out[i] = step.byte;
    }
    looks
}

// What one offset makes of the walk: the range that it stands on then, with how many the offset was compared, and the answer.
#[derive(Clone, Copy)]
pub struct Step {
    pub at: usize,
    pub looks: usize,
    pub byte: u8,
}

// Compares an offset with the range that the walk stands on, and steps to the next as long as the offset is at or past the end.
pub fn step_to<'a>(
    committed: u64,
    starts: &'a [u64],
    ends: &'a [u64],
    runs: usize,
    at: usize,
    offset: u64,
) -> Step
    requires { Whole (ack_cursor committed starts.now ends.now runs) }
    ensures { StepIs (view (ack_cursor committed starts.now ends.now runs)) at offset result }
{
    if offset < committed {
        return Step {
            at,
            looks: 0,
            byte: 1,
        };
    }
    let mut looks: usize = 0;
    for to in at..runs {
        looks += 1;
        if offset < ends[to] {
            let byte = if starts[to] <= offset { 1 } else { 0 };
            return Step {
                at: to,
                looks,
                byte,
            };
        }
    }
    Step {
        at: runs,
        looks,
        byte: 0,
    }
}
