// The operations that change the delivery config.
ghost use Rattle.delivery.specs.Config.{Sound};
ghost use Rattle.operations.specs.State.{ListReady};

use crate::answer;
use crate::answer::Done;
use crate::state::List;
use delivery::DeliveryConfig;

// new LIMIT OPTIN: the backoffs are the A of the list's entries. A refusal leaves the config.
pub fn new(config: DeliveryConfig, limit: u64, opt_in: u64, list: List) -> Done<DeliveryConfig>
    requires { Sound config × ListReady list }
    ensures { Sound result.left }
{
    let bad = Done {
        left: config,
        answer: None,
    };
    let Ok(limit) = u32::try_from(limit) else {
        return bad;
    };
    if 1 < opt_in {
        return bad;
    }
    match DeliveryConfig::new(limit, opt_in == 1, &list.a[..list.n]) {
        Ok(left) => Done {
            left,
            answer: answer::plain(),
        },
        Err(refusal) => Done {
            left: config,
            answer: Some(Err(refusal)),
        },
    }
}

// flush K
pub fn flush(config: DeliveryConfig, k: u64) -> Done<DeliveryConfig>
    requires { Sound config }
    ensures { Sound result.left }
{
    match u32::try_from(k) {
        Ok(k) => Done {
            left: config.with_attempts_flush_redeliveries(k),
            answer: answer::plain(),
        },
        Err(_) => Done {
            left: config,
            answer: None,
        },
    }
}
