// The operations that change the lease table.
ghost use Rattle.lease.specs.State.{Sound};

use crate::answer::{Answer, Done, Values};
use crate::state::{List, Op};
use crate::{answer, on_bytes};
use lease::{LeaseConfig, LeaseTable, LeaseToken};
use types::{Generation, Offset};

pub fn left(left: LeaseTable, answer: Answer) -> Done<LeaseTable>
    requires { Sound left }
    ensures { Sound result.left }
{
    Done { left, answer }
}

pub fn token(offset: u64, generation: u64) -> LeaseToken {
    LeaseToken {
        offset: Offset(offset),
        generation: Generation(generation),
    }
}

// resume: the list's entries are taken in, 16 at a time, and one alone as a pair. A refusal leaves the table.
fn resume(table: LeaseTable, list: List) -> Done<LeaseTable>
    requires { Sound table }
    ensures { Sound result.left }
{
    let n = list.n.min(256);
    let mut pairs = [on_bytes::pair_of(0, 0); 256];
    for i in 0..n {
        pairs[i] = on_bytes::pair_of(list.a[i], list.b[i]);
    }
    let mut so_far = table;
    for part in pairs[..n].chunks(16) {
        let resumed = match part {
            [pair] => so_far.resume_pair(*pair),
            _ => so_far.resume_attempts(part),
        };
        if let Err(refusal) = resumed.outcome {
            return left(table, Some(Err(refusal)));
        }
        so_far = resumed.table;
    }
    left(so_far, answer::plain())
}

// claim X NOW, reseal X G G2, ack X G, extend X G NOW, nack X G NOW DELAY, defer X NOW DELAY
fn hold(op: Op, table: LeaseTable) -> Done<LeaseTable>
    requires { Sound table }
    ensures { Sound result.left }
{
    let offset = Offset(op.w);
    let held = token(op.w, op.x);
    match op.number {
        39 => {
            let claimed = table.claim(0, offset, op.x);
            let grant = claimed.outcome.map(|grant| {
                Values::Three(
                    grant.token.offset.0,
                    grant.token.generation.0,
                    u64::from(grant.deliveries),
                )
            });
            left(claimed.table, Some(grant))
        }
        40 => {
            let resealed = table.reseal_from_to(offset, Generation(op.x), Generation(op.y));
            left(resealed.table, answer::yes(resealed.outcome))
        }
        41 => {
            let acked = table.ack(held);
            left(acked.table, Some(acked.outcome.map(|()| Values::Zero)))
        }
        42 => {
            let extended = table.extend(held, op.y);
            left(
                extended.table,
                Some(extended.outcome.map(|at| Values::One(at))),
            )
        }
        43 => {
            let nacked = table.nack(held, op.y, op.z);
            left(nacked.table, Some(nacked.outcome.map(|at| Values::One(at))))
        }
        44 => {
            let deferred = table.defer_redelivery(offset, op.x, op.y);
            left(deferred.table, answer::yes(deferred.outcome))
        }
        _ => left(table, None),
    }
}

// new V C, millis V C, default, at V C G, and all of them
pub fn change(op: Op, table: LeaseTable, list: List) -> Done<LeaseTable>
    requires { Sound table }
    ensures { Sound result.left }
{
    let config = LeaseConfig {
        visibility_nanos: op.w,
        hard_cap_nanos: op.x,
    };
    let next = match op.number {
        31 => LeaseTable::new(config),
        32 => LeaseTable::new(LeaseConfig::from_millis(op.w, op.x)),
        33 => LeaseTable::default(),
        34 => LeaseTable::starting_at(config, Generation(op.y)),
        35 => return resume(table, list),
        36 => table.note_attempts_flushed(),
        37 => table.release_below(Offset(op.w)),
        38 => table.shift_deadlines(op.w),
        _ => return hold(op, table),
    };
    left(next, answer::plain())
}
