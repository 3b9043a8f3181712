// What a server asks a consumer without changing it. The other questions are answered on a consumer's parts (in_place.rt).
ghost use Rattle.std.specs.Prelude.{◌≡◌};
ghost use Rattle.types.specs.Lists.{listed, numbers_of};
ghost use Rattle.types.specs.Table.{answer, guarded};
ghost use Rattle.consumer.specs.Rights.{looking};
ghost use Rattle.consumer.specs.Calls.{call_rows};
ghost use Rattle.consumer.specs.Questions.{waiting_at};
ghost use Rattle.consumer.specs.View.{view, Sound, waiting_of};

use crate::rights::LOOK;
use crate::{Consumer, rights, steps};
use types::refusals::Refusal;
use types::{Offset, lent};

// Whether a checkpoint is due, and why: no generation is left below the ceiling, or redeliveries since the last checkpoint have
// reached the threshold.
#[derive(Clone, Copy, Debug, PartialEq, Eq)]
pub struct Due {
    pub ceiling: bool,
    pub threshold: bool,
}

impl Consumer {
    // The waiting list at a clock, into a lent list from its first place on, and how many places were filled: the carried offsets, then
    // those whose lease's deadline has come, by deadline and then by offset. 38, 39, and 20 where they don't fit. A refusal changes
    // nothing.
    pub fn waiting(self, worker: u64, now: u64, out: &mut [Offset]) -> Result<usize, Refusal>
        requires { Sound self }
        ensures { answer (waiting_of result) (numbers_of out.new) ≡ guarded (call_rows (view self) worker looking) (numbers_of out.old) (listed (waiting_at (view self) now) (numbers_of out.old)) }
    {
        rights::permission_of(&self.settings.rights, worker, LOOK)?;
        let list = steps::waiting_list(
            self.table.len,
            self.table.carried_len,
            now,
            &self.table.offsets,
            &self.table.slots,
            &self.table.deadlines,
            &self.table.carried_offsets,
        );
        lent::list_offsets(list, out)
    }
}
