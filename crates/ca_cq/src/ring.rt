ghost use Rattle.std.specs.Prelude.{◌≡◌, ◌≤◌, ◌&&◌, filter, length, map};
ghost use Rattle.ca_base.specs.declared.limits.TheConstants.{MAX_DEPTH};
ghost use Rattle.ca_keys.specs.Equal.{queue_eq};

use crate::Removal;
use arrayvec::ArrayVec;
use ca_base::limits::MAX_DEPTH;
use ca_base::{Completion, QueueId, Side};
use circular_buffer::HeapCircularBuffer;

/// The places of the receives of a queue pair among these, in order.
pub(crate) fn places_of(
    waiting: &HeapCircularBuffer<Completion>,
    queue: QueueId,
) -> ArrayVec<u64, MAX_DEPTH>
    requires { length (filter (λ c. c.receive && queue_eq c.queue queue) waiting.now.items) ≤ MAX_DEPTH }
    ensures { result.items ≡ map (λ c. c.place) (filter (λ c. c.receive && queue_eq c.queue queue) waiting.now.items) }
{
    let mut places = ArrayVec::new();
    for i in 0..waiting.len() {
        if let Some(completion) = waiting.get(i) {
            if matches!(completion.side(), Side::Receives) && completion.queue == queue {
                places.push(completion.place);
            }
        }
    }
    places
}

/// The queue pair whose completions go.
#[derive(Clone, Copy)]
pub(crate) struct Dropped(pub(crate) QueueId);

impl Removal<Completion> for Dropped {
    ghost use Rattle.ca_keys.specs.Equal.{queue_eq};

    ghost names = { λ dropped completion. queue_eq completion.queue dropped.0 };

    fn names(&self, completion: &Completion) -> bool {
        completion.queue == self.0
    }
}
