// The calls on a machine, and what they are answered.
use checkpoint::Wrote;
use consumer::Consumer;
use consumer::calls::HandOut;
use consumer::queries::Due;
use consumer::views::View;
use lease::LeaseToken;
use types::refusals::Refusal;
use types::{Generation, Offset};

// What is asked of a consumer without changing it.
#[derive(Clone, Copy)]
pub enum Question {
    // The list goes into the lent one.
    Waiting { now: u64 },
    Committed,
    IsSettled(Offset),
    LeaseOf(Offset),
    CountOf(Offset),
    InFlight,
    IsDue,
    BlocksLeft,
    ViewOf { offset: Offset, now: u64 },
    // The stretches go into the lent list, start and end of each.
    OpenBetween { a: u64, b: u64 },
    NearestOpen(Offset),
}

// A call on the consumer's state.
#[derive(Clone, Copy)]
pub enum Ask {
    Claim {
        offset: Offset,
        now: u64,
    },
    Ack(LeaseToken),
    Term(LeaseToken),
    // With a delay of its own, or that of the schedule.
    Nack {
        token: LeaseToken,
        now: u64,
        delay: Option<u64>,
    },
    Progress {
        token: LeaseToken,
        now: u64,
    },
    Commit(Offset),
    Look(Question),
}

// A call: a worker's on the state, a worker's begin of a checkpoint, its steps, and a restart.
#[derive(Clone, Copy)]
pub enum Call {
    Ask { worker: u64, ask: Ask },
    Begin { worker: u64 },
    Step,
    Restart,
}

// What is told of a lease: all but who holds it.
#[derive(Clone, Copy)]
pub struct LeaseFigures {
    pub generation: Generation,
    pub attempt_start: u64,
    pub deadline: u64,
    pub deliveries: u32,
}

// What each question is answered; of a list, how many places of the lent one it fills.
#[derive(Clone, Copy)]
pub enum Reply {
    Waiting(usize),
    Committed(Offset),
    IsSettled(bool),
    LeaseOf(Option<LeaseFigures>),
    CountOf(u32),
    InFlight(usize),
    IsDue(Due),
    BlocksLeft(usize),
    ViewOf(View),
    OpenBetween(usize),
    NearestOpen(Offset),
}

// What each call on the state is answered.
#[derive(Clone, Copy)]
pub enum AskAnswer {
    Claimed(Result<HandOut, Refusal>),
    Acked(Result<(), Refusal>),
    Termed(Result<(), Refusal>),
    Nacked(Result<u64, Refusal>),
    Progressed(Result<u64, Refusal>),
    Committed(Result<bool, Refusal>),
    Looked(Result<Reply, Refusal>),
}

// What each call is answered; NotNow where it can't be made where it stands.
#[derive(Clone, Copy)]
pub enum CallAnswer {
    Asked(AskAnswer),
    Begun(Result<usize, Refusal>),
    Stepped(Result<Wrote, Refusal>),
    Restarted(Result<(), Refusal>),
    NotNow,
}

#[derive(Clone, Copy)]
pub struct Asked {
    pub answer: AskAnswer,
    pub consumer: Consumer,
}
