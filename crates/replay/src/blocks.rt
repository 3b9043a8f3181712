// The journal's blocks from outside: wear, a look, and a power failure while one is written.
ghost use Rattle.machine.specs.View.{Sound};

use crate::printing::{Said, Then, not_now, plain, with};
use answers::Numbers;
use machine::Machine;
use machine::calls::Call;
use power_cut::Kind;

// The place of a byte of a journal of so many bytes, where it has such a byte.
fn place_of(len: usize, block: u64, byte: u64) -> Option<usize> {
    if 127 < block || 511 < byte || (len / 512) as u64 <= block {
        return None;
    }
    Some((block * 512 + byte) as usize)
}

// A byte of the journal, worn.
pub fn poke(len: usize, block: u64, byte: u64, value: u64, area: &mut [u8]) -> Said {
    match (place_of(len, block, byte), u8::try_from(value)) {
        (Some(place), Ok(value)) if place < area.len() => {
            area[place] = value;
            plain(b"poked\n")
        }
        _ => not_now(),
    }
}

// The bytes of a block, from its place in the area on.
pub fn peek(len: usize, block: u64) -> Said {
    match place_of(len, block, 0) {
        Some(from) => plain(b"block ").then(Then::Block { from }),
        None => not_now(),
    }
}

// What a step would leave of the block that it writes, with 1 added to the last byte, which is one of the check's.
fn torn_block(written: &[u8], block: usize) -> [u8; 512] {
    let mut torn = [0u8; 512];
    if block < 128 && 512 * block + 512 <= written.len() {
        torn.copy_from_slice(&written[512 * block..512 * block + 512]);
        torn[511] = torn[511].wrapping_add(1);
    }
    torn
}

// Makes the next step on a copy of the area, and answers the block that it wrote, if it wrote one.
fn trial(machine: Machine, area: &[u8], copied: &mut [u8]) -> Option<usize>
    requires { Sound machine }
{
    let n = area.len();
    if copied.len() < n {
        return None;
    }
    copied[..n].copy_from_slice(area);
    let mut list = [0u64; 1];
    let done = machine::call(machine, Call::Step, &mut copied[..n], &mut list);
    match answers::of_call(done.answer, &list) {
        Numbers(0, _, block, ..) => Some(block as usize),
        _ => None,
    }
}

// The power fails in the step that is next; what it would have written is seen on a copy of the area.
pub fn cut(machine: &mut Machine, kind: Kind, area: &mut [u8]) -> Said
    requires { Sound machine.old }
    ensures { Sound machine.new }
{
    let mut copied = [0u8; 65536];
    let Some(block) = trial(*machine, area, &mut copied) else {
        return not_now();
    };
    let torn = torn_block(&copied, block);
    *machine = power_cut::cut(*machine, kind, area, &torn).machine;
    with(b"cut #\n", block as u64)
}
