// A whole plan in one walk: which of a list of offsets are settled.
ghost use Rattle.std.specs.Prelude.{◌≡◌, length};
ghost use Rattle.cursor.specs.View.{ack_cursor};
ghost use Rattle.cursor.specs.View as cursor;
ghost use Rattle.cursor.specs.Plan.{looks, bytes_from, pair_rows};
ghost use Rattle.types.specs.Refusal.{Falling};
ghost use Rattle.types.specs.Refused.{option_of};
ghost use Rattle.types.specs.Table.{first};
ghost use Rattle.types.specs.Lists.{numbers_of};
ghost use Rattle.consumer.specs.Questions.{Plan, look};
ghost use Rattle.consumer.specs.View.{view, Sound};
ghost use Rattle.consumer.specs.Parts.{planning, Plans, PlansIn};

use crate::rights::LOOK;
use crate::{Consumer, rights};
use cursor::plans;
use types::Offset;
use types::limits::{RANGES, WORKERS};
use types::refusals::Refusal;

impl Consumer {
    // A worker's plan of offsets, and how many looks it took: 1 where an offset is settled and 0 where it is open, into a lent list of the
    // same length. 38, 39, 36 where the lengths differ, and 37 with the place, from 0, of the first offset that is below the one before
    // it. A refusal writes nothing.
    pub fn plan(self, worker: u64, offsets: &[Offset], out: &mut [u8]) -> Result<usize, Refusal>
        requires { Sound self }
        ensures { Plans (look (view self) worker (Plan (numbers_of offsets.now) (length out.old))) out.old result out.new }
    {
        rights::permission_of(&self.settings.rights, worker, LOOK)?;
        if offsets.len() != out.len() {
            return Err(Refusal::UnequalLengths);
        }
        if let Some(place) = first_fall(offsets) {
            return Err(Refusal::Falling { place });
        }
        Ok(self.answer_all(offsets, out))
    }

    // The walk: fills the list, and answers how many looks that took.
    fn answer_all(self, offsets: &[Offset], out: &mut [u8]) -> usize
        requires sound { Sound self }
        requires even { length offsets.now ≡ length out.old }
        ensures looks { result ≡ looks (view self).cursor (numbers_of offsets.now) }
        ensures bytes { out.new ≡ bytes_from self.cursor.committed (view self).cursor.ahead (numbers_of offsets.now) }
    {
        let mut at = 0;
        let mut looks = 0;
        for i in 0..offsets.len() {
            let step = plans::step_to(
                self.cursor.committed,
                &self.cursor.starts,
                &self.cursor.ends,
                self.cursor.runs,
                at,
                offsets[i].0,
            );
            at = step.at;
            looks += step.looks;
            out[i] = step.byte;
        }
        looks
    }

    // A worker's plan of offsets by their numbers: 1 where an offset is settled and 0 where it is open, into a lent list of the same length.
    pub fn plan_numbers(
        self,
        worker: u64,
        offsets: &[u64],
        out: &mut [u8],
    ) -> Result<usize, Refusal>
        requires { Sound self }
        ensures { Plans (look (view self) worker (Plan offsets.now (length out.old))) out.old result out.new }
    {
        plan_in_place(
            self.cursor.committed,
            self.cursor.runs,
            worker,
            &self.settings.rights,
            &self.cursor.starts,
            &self.cursor.ends,
            offsets,
            out,
        )
    }
}

// The place, from 0, of the first offset that is below the one before it.
fn first_fall(offsets: &[Offset]) -> Option<usize>
    ensures { option_of Falling result ≡ first (pair_rows (numbers_of offsets.now)) }
{
    let mut before = 0;
    for i in 0..offsets.len() {
        let offset = offsets[i].0;
        if offset < before {
            return Some(i);
        }
        before = offset;
    }
    None
}

// A worker's plan, by the parts of the consumer that this looks at: each offset of a list that doesn't fall, 1 where it is settled and 0
// where it is open, into a lent list of the same length. A refusal leaves that as it was.
pub fn plan_in_place<'a>(
    committed: u64,
    runs: usize,
    worker: u64,
    rights: &'a [u8; WORKERS],
    starts: &'a [u64; RANGES],
    ends: &'a [u64; RANGES],
    offsets: &[u64],
    out: &mut [u8],
) -> Result<usize, Refusal>
    requires { cursor.Whole (ack_cursor committed starts.now ends.now runs) }
    ensures { PlansIn result (planning rights.now (ack_cursor committed starts.now ends.now runs)) worker offsets.now out.old out.new }
{
    rights::permission_of(rights, worker, LOOK)?;
    plans::plan_in_place(committed, starts, ends, runs, offsets, out)
}
