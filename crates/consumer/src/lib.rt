// The delivery state of one consumer: which offsets are settled, who holds which until when, how often each was handed out,
// and where the next checkpoint goes. Every call says which worker makes it, takes the state by value and gives it back beside its
// answer; a refusal gives back the very state that it was handed. Times are nanoseconds of any clock: it may stand still or run
// backwards.
#![tactic(auto)]

use cursor::AckCursor;
use delivery::DeliveryConfig;
use hours::Hours;
use lease::{LeaseConfig, LeaseTable};
use types::Generation;
use types::limits::WORKERS;

pub mod calls;
pub mod halves;
pub mod in_place;
pub mod plans;
pub mod queries;
pub mod rights;
pub mod snapshots;
pub mod views;
// The steps of the calls in place.
pub mod steps;

// What a consumer keeps of its configuration, beside what its lease table keeps.
#[repr(C)]
#[derive(Clone, Copy)]
pub struct Settings {
    pub delivery: DeliveryConfig,
    // A byte for each worker, worker 0's first.
    pub rights: [u8; WORKERS],
    pub hours: Hours,
}

// The configuration: what a consumer is started with.
#[repr(C)]
#[derive(Clone, Copy)]
pub struct Configuration {
    pub settings: Settings,
    pub lease: LeaseConfig,
}

// Where the next checkpoint goes: its group number, and the block of its header.
#[repr(C)]
#[derive(Clone, Copy, Debug, PartialEq, Eq)]
pub struct NextGroup {
    pub number: u64,
    pub block: usize,
}

// Generations are given out below the ceiling alone. The area is the journal's, in bytes.
#[repr(C)]
#[derive(Clone, Copy)]
pub struct Consumer {
    pub cursor: AckCursor,
    pub table: LeaseTable,
    pub ceiling: Generation,
    pub next: NextGroup,
    pub area_len: usize,
    pub settings: Settings,
}
