// The redelivery counter: how many grants had a count of 2 or more since the attempt counts were last made durable. It is a
// small state of its own, lent to the functions that change it; the two with plain parameters serve whoever keeps the number
// elsewhere.
#![tactic(auto)]

ghost use Rattle.std.specs.Prelude.{◌≡◌};
ghost use Rattle.redeliveries.specs.Counter.{after_grant, after_flush, counter};

#[repr(C)]
#[derive(Clone, Copy, Debug, PartialEq, Eq)]
pub struct Redeliveries {
    pub since_flush: u32,
}

// Notes a grant with this count.
pub fn note_grant(noted: &mut Redeliveries, deliveries: u32)
    ensures { noted.new ≡ counter (after_grant noted.old.since_flush deliveries) }
{
    noted.since_flush = raised(noted.since_flush, deliveries);
}

// Notes that the attempt counts are durable.
pub fn note_flushed(noted: &mut Redeliveries)
    ensures { noted.new ≡ counter (after_flush noted.old.since_flush) }
{
    noted.since_flush = 0;
}

// The counter after a grant with this count.
pub fn after_grant(since_flush: u32, deliveries: u32) -> u32
    ensures { result ≡ after_grant since_flush deliveries }
{
    let mut noted = Redeliveries { since_flush };
    note_grant(&mut noted, deliveries);
    noted.since_flush
}

// The counter once the attempt counts are durable.
pub fn after_flush(since_flush: u32) -> u32
    ensures { result ≡ after_flush since_flush }
{
    let mut noted = Redeliveries { since_flush };
    note_flushed(&mut noted);
    noted.since_flush
}

// The number that a grant with this count makes of another.
fn raised(since_flush: u32, deliveries: u32) -> u32
    ensures { result ≡ after_grant since_flush deliveries }
{
    if deliveries < 2 {
        return since_flush;
    }
    since_flush.saturating_add(1)
}
