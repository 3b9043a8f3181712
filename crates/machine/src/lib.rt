// The one way to call a consumer: every call of demand 3's lists is one `call` here, on the machine that the one before left. A call
// that can't be made where it stands is answered NotNow and changes nothing.
#![tactic(auto)]

ghost use Rattle.std.specs.Prelude.{◌≡◌, List, ℕ, length};
ghost use Rattle.types.specs.Refusal.{Result};
ghost use Rattle.consumer.specs.State.{State};
ghost use Rattle.starts.specs.Starting as starts;
ghost use Rattle.machine.specs.Calls.{ask, begin, step, restart};
ghost use Rattle.machine.specs.Answers.{ask_of, call_of};
ghost use Rattle.machine.specs.View.{Sound, MadeIs, StartMade, ImportedIs, MadeOff, CalledIs, Rests, phaseAfter};

use crate::calls::{Ask, Call, CallAnswer};
use checkpoint::{Writing, Wrote};
use consumer::{Configuration, Consumer};
use types::Generation;
use types::refusals::Refusal;

pub mod asks;
pub mod calls;
pub mod in_place;
pub mod plans;
pub mod snapshots;

// Who can be called is a number: 0 the consumer in the record, 1 the record itself, 2 nobody, so that only a restart is possible.
#[repr(C)]
#[derive(Clone, Copy)]
pub struct Machine {
    pub configuration: Configuration,
    pub phase: u64,
    pub writing: Writing,
}

#[derive(Clone, Copy)]
pub struct Called {
    pub answer: CallAnswer,
    pub machine: Machine,
}

#[derive(Clone, Copy)]
pub struct Started {
    pub answer: Result<(), Refusal>,
    pub machine: Machine,
}

// The phase that a step leaves.
pub fn phase_after(answer: Result<Wrote, Refusal>) -> u64
    ensures { result ≡ phaseAfter answer }
{
    match answer {
        Ok(wrote) => if wrote.finished { 0 } else { 1 },
        Err(_) => 1,
    }
}

impl Machine {
    // A machine that writes nothing.
    fn resting(configuration: Configuration, phase: u64, consumer: Consumer) -> Machine
        ensures { Rests configuration phase consumer result }
    {
        let writing = Writing {
            consumer,
            written: 0,
            payload: [0; 3606],
            cursor_len: 0,
            attempt_len: 0,
        };
        Machine {
            configuration,
            phase,
            writing,
        }
    }

    // The machine of what a start or an import made: its consumer can be called; beside a refusal nobody can.
    fn holding(configuration: Configuration, made: starts::Started) -> Started
        ensures { (right : Result State) (size : ℕ) → starts.StartedIs configuration size right made → MadeIs right configuration size result }
    {
        let answer = made.answer;
        let consumer = made.consumer;
        let Ok(()) = answer else {
            return Started {
                answer,
                machine: Machine::resting(configuration, 2, consumer),
            };
        };
        Started {
            answer,
            machine: Machine::resting(configuration, 0, consumer),
        }
    }

    // A fresh machine for a journal of so many zeroed bytes, or refusal 1 to 3, 33, 34 or 4 beside one that is off.
    pub fn start(configuration: Configuration, area_len: usize) -> Started
        ensures { StartMade configuration area_len result }
    {
        let made = starts::start(configuration, area_len);
        Machine::holding(configuration, made)
    }

    // A machine for a journal of so many zeroed bytes with what two snapshots have and a first generation, or refusal 1 to 3, 33,
    // 34, 4 or 6 to 19 beside one that is off.
    pub fn import<'a>(
        configuration: Configuration,
        area_len: usize,
        first: Generation,
        cursor: &'a [u8],
        attempts: &'a [u8],
    ) -> Started
        ensures { ImportedIs configuration area_len first.0 cursor.now attempts.now result }
    {
        let made = starts::import(configuration, area_len, first, cursor, attempts);
        Machine::holding(configuration, made)
    }

    // A machine that is off: a restart finds what its journal has.
    pub fn off(configuration: Configuration) -> Machine
        ensures { MadeOff configuration result }
    {
        let started = starts::start(configuration, 0);
        let consumer = started.consumer;
        Machine::resting(configuration, 2, consumer)
    }

    // A worker's call on the state.
    fn on_state(self, worker: u64, request: Ask, out: &mut [u64]) -> Called
        requires { Sound self }
        ensures { (a : List ℕ) → CalledIs self (ask worker (ask_of (length out.old) request)) a out.old result a out.new }
    {
        if self.phase != 0 {
            return Called {
                answer: CallAnswer::NotNow,
                machine: self,
            };
        }
        let asked = asks::ask(self.writing.consumer, worker, request, out);
        let answer = asked.answer;
        let consumer = asked.consumer;
        let configuration = self.configuration;
        let mut writing = self.writing;
        writing.consumer = consumer;
        Called {
            answer: CallAnswer::Asked(answer),
            machine: Machine {
                configuration,
                phase: self.phase,
                writing,
            },
        }
    }

    // A worker begins a checkpoint.
    fn begin(self, worker: u64) -> Called
        requires { Sound self }
        ensures { (a out : List ℕ) → CalledIs self (begin worker) a out result a out }
    {
        if self.phase != 0 {
            return Called {
                answer: CallAnswer::NotNow,
                machine: self,
            };
        }
        let begun = checkpoint::begin(self.writing.consumer, worker);
        let answer = begun.answer;
        let Ok(_) = answer else {
            return Called {
                answer: CallAnswer::Begun(answer),
                machine: self,
            };
        };
        let configuration = self.configuration;
        let writing = begun.writing;
        Called {
            answer: CallAnswer::Begun(answer),
            machine: Machine {
                configuration,
                phase: 1,
                writing,
            },
        }
    }

    // Makes the next block write of a checkpoint.
    fn step(self, area: &mut [u8]) -> Called
        requires { Sound self }
        ensures { (out : List ℕ) → CalledIs self step area.old out result area.new out }
    {
        if self.phase != 1 {
            return Called {
                answer: CallAnswer::NotNow,
                machine: self,
            };
        }
        let stepped = self.writing.step(area);
        let answer = stepped.answer;
        let configuration = self.configuration;
        let writing = stepped.writing;
        Called {
            answer: CallAnswer::Stepped(answer),
            machine: Machine {
                configuration,
                phase: phase_after(answer),
                writing,
            },
        }
    }

    // Goes on from what the journal has, whoever could be called before; refused, nothing changes.
    pub fn restart(self, area: &[u8]) -> Called
        requires { Sound self }
        ensures { (out : List ℕ) → CalledIs self restart area.now out result area.now out }
    {
        let configuration = self.configuration;
        let started = starts::restart(configuration, area);
        let answer = started.answer;
        let consumer = started.consumer;
        let Ok(()) = answer else {
            return Called {
                answer: CallAnswer::Restarted(answer),
                machine: self,
            };
        };
        Called {
            answer: CallAnswer::Restarted(answer),
            machine: Machine::resting(configuration, 0, consumer),
        }
    }
}

// One call, lent the journal and a list for an answer.
pub fn call(machine: Machine, call: Call, area: &mut [u8], out: &mut [u64]) -> Called
    requires { Sound machine }
    ensures { CalledIs machine (call_of (length out.old) «call») area.old out.old result area.new out.new }
{
    match call {
        Call::Ask { worker, ask } => machine.on_state(worker, ask, out),
        Call::Begin { worker } => machine.begin(worker),
        Call::Step => machine.step(area),
        Call::Restart => machine.restart(area),
    }
}
