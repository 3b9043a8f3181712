// An export, which is a question of the step function as the others are, with a function of its own: it is lent two lists of bytes, where
// `call` is lent one list of numbers.
ghost use Rattle.consumer.specs.Export.{snapshots};
ghost use Rattle.machine.specs.View.{Sound, ExportedIs};

use crate::Machine;
use consumer::snapshots::Lengths;
use types::refusals::Refusal;

impl Machine {
    // A worker's export: the snapshots of the cursor and of all counts, each at the front of its own lent bytes; None where the consumer
    // can't be called. The machine is as it was.
    pub fn export(
        self,
        worker: u64,
        cursor: &mut [u8],
        attempts: &mut [u8],
    ) -> Option<Result<Lengths, Refusal>>
        requires { Sound self }
        ensures { ExportedIs self worker (snapshots cursor.old attempts.old) result (snapshots cursor.new attempts.new) }
    {
        if self.phase != 0 {
            return None;
        }
        let consumer = self.writing.consumer;
        let answer = consumer.export(worker, cursor, attempts);
        Some(answer)
    }
}
