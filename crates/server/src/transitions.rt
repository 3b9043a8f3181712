// A start and an import in numbers, on a machine by value: what each answers, and the machine that it leaves. The exported functions are
// thin over them.
ghost use Rattle.std.specs.Prelude.{ℕ};
ghost use Rattle.types.specs.Refusal.{Result};
ghost use Rattle.consumer.specs.State.{State};
ghost use Rattle.machine.specs.View as machine;
ghost use Rattle.server.specs.Transitions.{MadeIs, StartIs, ImportIs};

use answers::Numbers;
use consumer::Configuration;
use machine::{Machine, Started};
use types::Generation;

#[derive(Clone, Copy)]
pub struct MachineAnswer {
    pub numbers: Numbers,
    pub machine: Machine,
}

// The machine that was made; beside a refusal, the one that was handed in.
fn made(before: Machine, made: Started) -> MachineAnswer
    ensures { (right : Result State) (s : Configuration) (size : ℕ) → machine.MadeIs right s size made → MadeIs right before s result.numbers result.machine }
{
    let answer = made.answer;
    let numbers = answers::of_done(answer);
    let Ok(()) = answer else {
        return MachineAnswer {
            numbers,
            machine: before,
        };
    };
    let machine = made.machine;
    MachineAnswer { numbers, machine }
}

// A fresh machine for so many zeroed bytes; refused, the one that was handed in.
pub fn start(before: Machine, configuration: Configuration, area_len: usize) -> MachineAnswer
    ensures { StartIs before configuration area_len result.numbers result.machine }
{
    made(before, Machine::start(configuration, area_len))
}

// A machine for so many zeroed bytes with what two snapshots have; refused, the one that was handed in.
pub fn import<'a>(
    before: Machine,
    configuration: Configuration,
    area_len: usize,
    generation: u64,
    cursor: &'a [u8],
    attempts: &'a [u8],
) -> MachineAnswer
    ensures { ImportIs before configuration area_len generation cursor.now attempts.now result.numbers result.machine }
{
    let first = Generation(generation);
    made(
        before,
        Machine::import(configuration, area_len, first, cursor, attempts),
    )
}
