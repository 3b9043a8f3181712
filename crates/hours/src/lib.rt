// Opening hours: which half hours of a week are open, whether a clock lies in one of them, and when the next one begins. Times are
// nanoseconds; a clock and the shift may pass the largest number together, so both are taken within a week first.
#![tactic(auto)]

ghost use Rattle.std.specs.Prelude.{◌≡◌, ◌/◌, ◌%◌, ◌^◌, ◌<◌};
ghost use Rattle.types.specs.Refusal.{done};
ghost use Rattle.types.specs.Refused.{as_is};
ghost use Rattle.types.specs.Table.{checked};
ghost use Rattle.hours.specs.Hours.{firstOpen, anyAbove, isOpen, next_opening, hours_rows};
ghost use Rattle.hours.specs.View.{view, closed_until, opening_of};

use types::refusals::Refusal;

pub const HALF_HOUR: u64 = 1800000000000;

pub const WEEK: u64 = 604800000000000;

// Half hours of a day and of a week, and days of a week.
const DAY_HALVES: u64 = 48;

const WEEK_HALVES: u64 = 336;

const DAYS: u64 = 7;

// The first number that has a bit above 47.
const PAST_BITS: u64 = 281474976710656;

// The hours of a consumer, if it has any: without them it is open always. A day is a number whose bits 0 to 47 are its half hours, bit
// 0 the one from midnight; Monday comes first. Clock 0 lies the shift after Monday midnight.
#[repr(C)]
#[derive(Clone, Copy)]
pub struct Hours {
    pub given: bool,
    pub shift: u64,
    pub days: [u64; 7],
}

// The half hours of a day from one on, that one as bit 0.
fn remaining(day: u64, half: u64) -> u64
    requires { half < 48 }
    ensures { result ≡ day % 281474976710656 / 2 ^ half }
{
    (day % PAST_BITS) >> half
}

// The first open half hour from one of the week on, counted on past its end: through the rest of the day, then day by day, up to the
// same weekday a week on. Where none is open, the same half hour a week on.
fn first_open(days: &[u64; 7], from: u64) -> u64
    requires { from < 336 }
    ensures { result ≡ firstOpen days.now from 336 }
{
    let mut at = from;
    while at < from + WEEK_HALVES {
        let day = (at / DAY_HALVES % DAYS) as usize;
        let rest = remaining(days[day], at % DAY_HALVES);
        if rest.count_ones() != 0 {
            return at + u64::from(rest.trailing_zeros());
        }
        at = at - at % DAY_HALVES + DAY_HALVES;
    }
    from + WEEK_HALVES
}

// Whether a day has a bit above 47.
fn any_above(days: &[u64; 7]) -> bool
    ensures { result ≡ anyAbove days.now 7 }
{
    days.iter().any(|day| PAST_BITS <= *day)
}

impl Hours {
    // What stands against hours: bits above 47 or a shift of a week or more (33), then a week with no open half hour (34).
    pub fn test(self) -> Result<(), Refusal>
        ensures { as_is result ≡ checked (hours_rows (view self)) (done tt) }
    {
        if !self.given {
            return Ok(());
        }
        if any_above(&self.days) || WEEK <= self.shift {
            return Err(Refusal::BadHours);
        }
        if first_open(&self.days, 0) == WEEK_HALVES {
            return Err(Refusal::NeverOpen);
        }
        Ok(())
    }

    // None where it is open at a clock, or else the clock at which it opens next: the largest number where that lies beyond.
    pub fn at(self, now: u64) -> Option<u64>
        ensures { opening_of result ≡ closed_until (view self) now }
    {
        if !self.given {
            return None;
        }
        let time = (now % WEEK + self.shift % WEEK) % WEEK;
        let half = time / HALF_HOUR;
        let first = first_open(&self.days, half);
        if first == half {
            return None;
        }
        Some(now.saturating_add((first - half) * HALF_HOUR - time % HALF_HOUR))
    }

    // Whether it is open at a clock.
    pub fn is_open(self, now: u64) -> bool
        ensures { result ≡ isOpen (view self) now }
    {
        self.at(now).is_none()
    }

    // The first open clock from a given one on.
    pub fn next_opening(self, now: u64) -> u64
        ensures { result ≡ next_opening (view self) now }
    {
        self.at(now).unwrap_or(now)
    }
}
