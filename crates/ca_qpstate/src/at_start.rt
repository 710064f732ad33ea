ghost use Rattle.std.specs.Prelude.{◌≡◌};
ghost use Rattle.ca_base.specs.objects.QueuePair as objects;

use ca_base::limits::{MIN_PATH_MTU, PSN_BASE};
use ca_base::{Answers, RequesterNumbers, ResponderNumbers};
use std::alloc::Global;

/// A requester that sent nothing, of a slot in which so many timers fired.
pub fn requester_at_start(timers: u64) -> RequesterNumbers
    ensures { result ≡ objects.requester_at_start timers }
{
    RequesterNumbers {
        una: PSN_BASE,
        cursor: PSN_BASE,
        oldest: 0,
        oldest_psn: PSN_BASE,
        next: 0,
        retries: 0,
        rnrs: 0,
        waiting: false,
        timers,
        retry: 0,
        rnr_retry: 0,
        reads: 0,
    }
}

/// A responder that took nothing. Its response queue takes memory of `alloc` as it grows, and none yet.
pub fn responder_at_start(alloc: Global) -> ResponderNumbers
    ensures { result ≡ objects.responder_at_start }
{
    ResponderNumbers {
        expected: PSN_BASE,
        msn: 0,
        message: None,
        answers: Answers::empty(alloc),
        nak_sent: false,
        mtu: MIN_PATH_MTU as u16,
        rnr_code: 0,
    }
}
