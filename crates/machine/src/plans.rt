// A plan, which is a question of the step function as the others are, with a function of its own: it is lent a list of offsets and a
// list of bytes, where `call` is lent one list of numbers.
ghost use Rattle.machine.specs.View.{Sound, PlannedIs};

use crate::Machine;
use types::refusals::Refusal;

impl Machine {
    // A worker's plan: each offset of a list that doesn't fall, 1 where it is settled and 0 where it is open, into a lent list of the same
    // length, and how many looks that took; None where the consumer can't be called. The machine is as it was.
    pub fn plan(
        self,
        worker: u64,
        offsets: &[u64],
        out: &mut [u8],
    ) -> Option<Result<usize, Refusal>>
        requires { Sound self }
        ensures { PlannedIs self worker offsets.now out.old result out.new }
    {
        if self.phase != 0 {
            return None;
        }
        let consumer = self.writing.consumer;
        let answer = consumer.plan_numbers(worker, offsets, out);
        Some(answer)
    }
}
