// A simulated power failure in a checkpoint's step, for programs that try what a restart then finds. It is no part of a server.
#![tactic(auto)]

ghost use Rattle.std.specs.Prelude.{◌≡◌};
ghost use Rattle.machine.specs.View.{Sound};
ghost use Rattle.power_cut.specs.Cut.{new, torn};
ghost use Rattle.power_cut.specs.View.{cut_of, CutIs, Stepping, OffIs};

use machine::Machine;

// What the failure leaves of the block being written: what it was, what it was to be, or bytes whose check fails.
#[derive(Clone, Copy, Debug, PartialEq, Eq)]
pub enum Kind {
    Old,
    New,
    Torn,
}

// The step answers nothing: only whether a header block was left new is seen. None where no block is being written, and where no
// failure leaves such bytes.
#[derive(Clone, Copy)]
pub struct Failed {
    pub answer: Option<bool>,
    pub machine: Machine,
}

// The machine, switched off.
fn switched_off(mut machine: Machine) -> Machine
    ensures { OffIs machine result }
{
    machine.phase = 2;
    machine
}

// The block is wholly written.
fn cut_new(machine: Machine, area: &mut [u8]) -> Failed
    requires { Stepping machine area.old }
    ensures { CutIs machine new area.old result area.new }
{
    let wrote = machine.writing.step(area).answer.unwrap();
    Failed {
        answer: Some(wrote.finished),
        machine: switched_off(machine),
    }
}

// The block is left as bytes whose check fails; they are put in place of what the step wrote.
fn cut_torn(machine: Machine, area: &mut [u8], bytes: &[u8]) -> Failed
    requires { Stepping machine area.old }
    ensures { CutIs machine (torn bytes.now) area.old result area.new }
{
    if bytes.len() != 512 {
        return Failed {
            answer: None,
            machine,
        };
    }
    if crc::is_sealed(bytes) {
        return Failed {
            answer: None,
            machine,
        };
    }
    let wrote = machine.writing.step(area).answer.unwrap();
    let _ = raw::write_bytes(area, 512 * wrote.block, bytes);
    Failed {
        answer: Some(false),
        machine: switched_off(machine),
    }
}

// The power fails in the next step, which is lent the area; `bytes` are what a torn block is left with.
pub fn cut(machine: Machine, kind: Kind, area: &mut [u8], bytes: &[u8]) -> Failed
    requires { Sound machine }
    ensures { CutIs machine (cut_of kind bytes.now) area.old result area.new }
{
    if machine.phase != 1 {
        return Failed {
            answer: None,
            machine,
        };
    }
    if area.len() != machine.writing.consumer.area_len {
        return Failed {
            answer: None,
            machine,
        };
    }
    match kind {
        Kind::Old => Failed {
            answer: Some(false),
            machine: switched_off(machine),
        },
        Kind::New => cut_new(machine, area),
        Kind::Torn => cut_torn(machine, area, bytes),
    }
}
