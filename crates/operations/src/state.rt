// What a list of operations works on, and what an operation is.
ghost use Rattle.operations.specs.State.{ListReady, BytesReady, Ready};

use cursor::AckCursor;
use delivery::DeliveryConfig;
use lease::{LeaseConfig, LeaseTable};

// An operation's number and its numbers, 0 where it has fewer.
#[derive(Clone, Copy, Debug, PartialEq, Eq)]
pub struct Op {
    pub number: u64,
    pub w: u64,
    pub x: u64,
    pub y: u64,
    pub z: u64,
}

// The first n of 256 entries A B.
#[derive(Clone, Copy)]
pub struct List {
    pub a: [u64; 256],
    pub b: [u64; 256],
    pub n: usize,
}

// The first n of 4,096 bytes.
#[derive(Clone, Copy)]
pub struct Bytes {
    pub all: [u8; 4096],
    pub n: usize,
}

#[derive(Clone, Copy)]
pub struct State {
    pub cursor: AckCursor,
    pub table: LeaseTable,
    pub config: DeliveryConfig,
    pub list: List,
    pub bytes: Bytes,
}

impl Bytes {
    // The bytes from one place up to another, if there are so many.
    pub fn part(&self, from: u64, to: u64) -> Option<&[u8]>
        requires { BytesReady self.now }
    {
        self.all[..self.n].get(from as usize..to as usize)
    }
}

// No entries.
pub fn empty() -> List
    ensures { ListReady result }
{
    List {
        a: [0; 256],
        b: [0; 256],
        n: 0,
    }
}

pub fn fresh() -> State
    ensures { Ready result }
{
    State {
        cursor: AckCursor::new(),
        table: LeaseTable::new(LeaseConfig::default()),
        config: DeliveryConfig::default(),
        list: empty(),
        bytes: Bytes {
            all: [0; 4096],
            n: 0,
        },
    }
}
