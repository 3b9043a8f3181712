// The delivery policy: the acknowledgement verbs, when a message has been handed out too often, and how long a retry waits.
#![tactic(auto)]

ghost use Rattle.std.specs.Prelude.{◌≡◌, not, ◌&&◌, ◌≤◌, length, take};
ghost use Rattle.types.specs.Refusal.{done};
ghost use Rattle.delivery.specs.Policy.{unlimited, destination, disposition, scheduled, delayed, capped_delay, nack_backoff, effective_nack_delay};
ghost use Rattle.delivery.specs.Config.{view, Sound, defaults, dispositionOf, delay_of, ConfiguredIs, FlushingIs};

use types::refusals::Refusal;

// What a consumer says of a message that it was handed.
#[derive(Clone, Copy, Debug, PartialEq, Eq)]
pub enum AckVerb {
    // Done: not handed out again, unless a restart finds a state that doesn't have it yet.
    Ack,
    // Failed: to be retried after this delay.
    Nack { delay_nanos: u64 },
    // Still being worked on: the lease is extended by one visibility window.
    Progress,
    // Not to be handed out again, and no dead letter either.
    Term,
}

// What becomes of a message that is handed out.
#[derive(Clone, Copy, Debug, PartialEq, Eq)]
pub enum Disposition {
    Deliver,
    // It has been handed out more often than the limit allows.
    DeadLetter,
}

// The delivery settings of one consumer. The backoffs are the first `backoff_len` of the array.
#[repr(C)]
#[derive(Clone, Copy)]
pub struct DeliveryConfig {
    pub max_deliver: u32,
    pub allow_unlimited: bool,
    pub backoff_nanos: [u64; 16],
    pub backoff_len: usize,
    pub attempts_flush_redeliveries: u32,
}

// Whether a limit that never bites lacks its opt-in. Delivery counts stay at u32's largest, so no count is above it.
pub fn lacks_opt_in(max_deliver: u32, allow_unlimited: bool) -> bool
    ensures { result ≡ (unlimited max_deliver && not allow_unlimited) }
{
    (max_deliver == 0 || max_deliver == u32::MAX) && !allow_unlimited
}

// The backoffs at the front of an array.
fn steps(backoff_nanos: &[u64]) -> [u64; 16]
    requires { length backoff_nanos.now ≤ 16 }
    ensures { take (length backoff_nanos.now) result ≡ backoff_nanos.now }
{
    let mut all = [0u64; 16];
    all[..backoff_nanos.len()].copy_from_slice(backoff_nanos);
    all
}

// What becomes of a message whose hand-outs, this one included, number `deliveries`, by the limit alone.
pub fn disposition_of(max_deliver: u32, deliveries: u32) -> Disposition
    ensures { dispositionOf result ≡ done (destination max_deliver deliveries) }
{
    if max_deliver != 0 && max_deliver < deliveries {
        return Disposition::DeadLetter;
    }
    Disposition::Deliver
}

// The backoff of an attempt, counted from 1: past the last the last, and 0 where there is none.
fn backoff(backoffs: &[u64], attempt: u32) -> u64
    ensures { result ≡ scheduled backoffs.now attempt }
{
    if backoffs.is_empty() {
        return 0;
    }
    let last = backoffs.len() - 1;
    backoffs[last.min(attempt.saturating_sub(1) as usize)]
}

// The delay that a nack gets: an explicit one wins over the schedule, and neither outlasts the hard cap.
pub fn nack_delay(backoffs: &[u64], attempt: u32, delay: Option<u64>, hard_cap_nanos: u64) -> u64
    ensures { result ≡ capped_delay backoffs.now attempt (delay_of delay) hard_cap_nanos }
{
    let asked = match delay {
        Some(nanos) => nanos,
        None => backoff(backoffs, attempt),
    };
    asked.min(hard_cap_nanos)
}

impl DeliveryConfig {
    // The default limit on hand-outs before a message is a dead letter.
    pub const DEFAULT_MAX_DELIVER: u32 = 5;

    // The default number of redeliveries after which the attempt counts are to be made durable.
    pub const DEFAULT_ATTEMPTS_FLUSH_REDELIVERIES: u32 = 1;

    // The defaults, with no backoffs.
    pub fn default() -> DeliveryConfig
        ensures is { result ≡ defaults }
        ensures sound { Sound result }
    {
        DeliveryConfig {
            max_deliver: DeliveryConfig::DEFAULT_MAX_DELIVER,
            allow_unlimited: false,
            backoff_nanos: [0u64; 16],
            backoff_len: 0,
            attempts_flush_redeliveries: DeliveryConfig::DEFAULT_ATTEMPTS_FLUSH_REDELIVERIES,
        }
    }

    // A config with the default flush threshold. The limits 0 and 4294967295 never bite, so each wants the opt-in (1); more
    // than 16 backoffs are refused (2).
    pub fn new(
        max_deliver: u32,
        allow_unlimited: bool,
        backoff_nanos: &[u64],
    ) -> Result<DeliveryConfig, Refusal>
        ensures { ConfiguredIs max_deliver allow_unlimited backoff_nanos.now result }
    {
        if lacks_opt_in(max_deliver, allow_unlimited) {
            return Err(Refusal::UnlimitedDeliverNotAllowed);
        }
        let backoff_len = backoff_nanos.len();
        if 16 < backoff_len {
            return Err(Refusal::TooManySteps);
        }
        Ok(DeliveryConfig {
            max_deliver,
            allow_unlimited,
            backoff_nanos: steps(backoff_nanos),
            backoff_len,
            attempts_flush_redeliveries: DeliveryConfig::DEFAULT_ATTEMPTS_FLUSH_REDELIVERIES,
        })
    }

    // The same config with another flush threshold: the counts on the disk are at most that many redeliveries behind. In the Rust 0
    // switches the trigger off, so that they fall behind without a bound; it is taken here and refused (3) where a consumer starts.
    pub fn with_attempts_flush_redeliveries(mut self, n: u32) -> DeliveryConfig
        ensures { FlushingIs self n result }
    {
        self.attempts_flush_redeliveries = n;
        self
    }

    // How many redeliveries since the last flush make a flush due.
    pub fn attempts_flush_redeliveries(self) -> u32
        ensures { result ≡ (view self).flush_redeliveries }
    {
        self.attempts_flush_redeliveries
    }

    // The limit on hand-outs; 0 is none.
    pub fn max_deliver(self) -> u32
        ensures { result ≡ (view self).maxDeliver }
    {
        self.max_deliver
    }

    // Whether hand-outs without a limit were asked for.
    pub fn allows_unlimited(self) -> bool
        ensures { result ≡ (view self).allowUnlimited }
    {
        self.allow_unlimited
    }

    // What becomes of a message whose hand-outs, this one included, number `deliveries`.
    pub fn disposition(self, deliveries: u32) -> Disposition
        ensures { dispositionOf result ≡ done (disposition (view self) deliveries) }
    {
        disposition_of(self.max_deliver, deliveries)
    }

    // The schedule's delay before a message nacked at this attempt is retried.
    pub fn nack_backoff(self, attempt: u32) -> u64
        requires { Sound self }
        ensures { result ≡ nack_backoff (view self) attempt }
    {
        backoff(&self.backoff_nanos[..self.backoff_len], attempt)
    }

    // The delay that a nack gets.
    pub fn effective_nack_delay(
        self,
        attempt: u32,
        explicit_delay: Option<u64>,
        hard_cap_nanos: u64,
    ) -> u64
        requires { Sound self }
        ensures { result ≡ effective_nack_delay (view self) attempt (delay_of explicit_delay) hard_cap_nanos }
    {
        nack_delay(
            &self.backoff_nanos[..self.backoff_len],
            attempt,
            explicit_delay,
            hard_cap_nanos,
        )
    }
}
