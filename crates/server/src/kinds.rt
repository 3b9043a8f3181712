// Which call a number is, with the numbers behind it.
ghost use Rattle.std.specs.Prelude.{◌≡◌, ℕ};
ghost use Rattle.server.specs.Kinds.{ask_at, call_at, asking_of, calling_of};

use lease::LeaseToken;
use machine::calls::{Ask, Call, Question};
use types::{Generation, Offset};

// The call on the state that a number is, if it is one.
pub fn ask_of(kind: u64, a: u64, b: u64, c: u64, d: u64) -> Option<Ask>
    ensures { (room : ℕ) → asking_of room result ≡ ask_at kind a b c d room }
{
    let offset = Offset(a);
    let token = LeaseToken {
        offset: Offset(a),
        generation: Generation(b),
    };
    match kind {
        0 => Some(Ask::Claim { offset, now: b }),
        1 => Some(Ask::Ack(token)),
        2 => Some(Ask::Term(token)),
        3 => Some(Ask::Nack {
            token,
            now: c,
            delay: None,
        }),
        4 => Some(Ask::Nack {
            token,
            now: c,
            delay: Some(d),
        }),
        5 => Some(Ask::Progress { token, now: c }),
        6 => Some(Ask::Commit(offset)),
        32 => Some(Ask::Look(Question::Waiting { now: a })),
        33 => Some(Ask::Look(Question::Committed)),
        34 => Some(Ask::Look(Question::IsSettled(offset))),
        35 => Some(Ask::Look(Question::LeaseOf(offset))),
        36 => Some(Ask::Look(Question::CountOf(offset))),
        37 => Some(Ask::Look(Question::InFlight)),
        38 => Some(Ask::Look(Question::IsDue)),
        39 => Some(Ask::Look(Question::BlocksLeft)),
        40 => Some(Ask::Look(Question::ViewOf { offset, now: b })),
        41 => Some(Ask::Look(Question::OpenBetween { a, b })),
        42 => Some(Ask::Look(Question::NearestOpen(offset))),
        _ => None,
    }
}

// The call of a worker on a machine that a number is, if it is one.
pub fn call_of(worker: u64, kind: u64, a: u64, b: u64, c: u64, d: u64) -> Option<Call>
    ensures { (room : ℕ) → calling_of room result ≡ call_at worker kind a b c d room }
{
    match kind {
        16 => Some(Call::Begin { worker }),
        17 => Some(Call::Step),
        18 => Some(Call::Restart),
        _ => {
            let ask = ask_of(kind, a, b, c, d)?;
            Some(Call::Ask { worker, ask })
        }
    }
}
