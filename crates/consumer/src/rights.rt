// What each worker may do: a byte for each worker, with a bit for each operation.
ghost use Rattle.std.specs.Prelude.{◌≡◌};
ghost use Rattle.types.specs.Table.{first};
ghost use Rattle.consumer.specs.Rights.{worker_rows};
ghost use Rattle.consumer.specs.Standing.{supervises};
ghost use Rattle.consumer.specs.View.{permission_of};

use types::limits::WORKERS;
use types::refusals::Refusal;

// Settle covers Ack and Term, extend covers Progress, checkpoint is asked for at begin, and look covers every question.
pub const CLAIM: u8 = 1;

pub const SETTLE: u8 = 2;

pub const NACK: u8 = 4;

pub const EXTEND: u8 = 8;

pub const COMMIT: u8 = 16;

pub const CHECKPOINT: u8 = 32;

pub const LOOK: u8 = 64;

// The mark of a supervisor, which permits nothing by itself.
pub const SUPERVISOR: u8 = 128;

// Whether a worker has a bit among the rights, or refusal 38 or 39; no worker has bit 0. Every call of a worker asks this before all else.
pub fn permission_of(rights: &[u8; WORKERS], worker: u64, bit: u8) -> Result<(), Refusal>
    ensures { permission_of result ≡ first (worker_rows rights.now worker bit) }
{
    if WORKERS as u64 <= worker {
        return Err(Refusal::UnknownWorker);
    }
    if bit == 0 {
        return Err(Refusal::NotPermitted);
    }
    if rights[worker as usize] / bit % 2 == 1 {
        return Ok(());
    }
    Err(Refusal::NotPermitted)
}

// Whether a worker is marked as a supervisor.
pub fn is_supervisor(rights: &[u8; WORKERS], worker: u64) -> bool
    ensures { result ≡ supervises rights.now worker }
{
    permission_of(rights, worker, SUPERVISOR).is_ok()
}
