// The identifiers that the log and the lease table hand out, each a type of its own so that none is taken for another, and an
// offset with its attempt count.
#![tactic(auto)]

ghost use Rattle.std.specs.Prelude.{◌≡◌};
ghost use Rattle.types.specs.Refused.{option_of};
ghost use Rattle.types.specs.Identifiers.{offset, number, checked_next};

pub mod lent;
pub mod limits;
pub mod numbers;
pub mod refusals;

// A position in the log: it names a message.
#[repr(C)]
#[derive(Clone, Copy, Debug, PartialEq, Eq)]
pub struct Offset(pub u64);

// Names one hand-out of a message.
#[repr(C)]
#[derive(Clone, Copy, Debug, PartialEq, Eq)]
pub struct Generation(pub u64);

// An offset with its attempt count.
#[repr(C)]
#[derive(Clone, Copy, Debug, PartialEq, Eq)]
pub struct Pair {
    pub offset: u64,
    pub attempt: u32,
}

impl Offset {
    // The first offset in a log.
    pub const ZERO: Offset = Offset(0);

    // The first offset.
    pub fn default() -> Offset
        ensures { result ≡ offset 0 }
    {
        Offset::ZERO
    }

    // Wraps a raw number.
    pub fn new(value: u64) -> Offset
        ensures { result ≡ offset value }
    {
        Offset(value)
    }

    // The raw number.
    pub fn get(self) -> u64
        ensures { result ≡ self.0 }
    {
        self.0
    }

    // The next offset, or None behind the last: offsets are never used again, so there is no way round.
    pub fn checked_next(self) -> Option<Offset>
        ensures { option_of number result ≡ checked_next self.0 }
    {
        self.0.checked_add(1).map(Offset)
    }
}
