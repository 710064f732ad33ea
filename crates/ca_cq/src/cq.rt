use crate::cq_error::CqError;
use crate::remove;
use crate::reservation::{is_same_side, room_reserved, room_taken, room_taken_behind, source_in};
use crate::ring::{Dropped, places_of};
use arrayvec::ArrayVec;
use ca_base::limits::{MAX_DEPTH, MAX_POLLED};
use ca_base::{Completion, Memory, QueueId, Reservation, Reserve};
use circular_buffer::HeapCircularBuffer;
use std::alloc::Global;
use std::marker::Model;

/// A completion queue. Contracts see its capacity, the reservations, the latest first, and the completions that wait, the
/// next to be polled first.
#[derive(Drop)]
pub struct Cq {
    reservations: Vec<Reservation>,
    waiting: HeapCircularBuffer<Completion>,
}

impl Model for Cq {
    ghost use Rattle.std.specs.Prelude.{◌<◌, ◌≤◌, ◌^◌, length};
    ghost use Rattle.ca_base.specs.objects.CompletionQueue.{CompletionQueue};

    ghost Value = { CompletionQueue };

    ghost view = { λ q. record {
      capacity = q.waiting.capacity;
      reservations = q.reservations.items;
      waiting = q.waiting.items;
    } };

    ghost invariant = { λ q. (q.waiting.capacity < 2 ^ 16) × (length q.waiting.items ≤ q.waiting.capacity) };
}

impl Cq {
    ghost use Rattle.std.specs.Prelude.{◌≡◌, ◌+◌, ◌<◌, ◌≤◌, ◌↔◌, [], ◌∷◌, IfOk, OnOk, OnErr, IsTrue, Err, length, slice_get, take};
    ghost use Rattle.ca_base.specs.declared.limits.TheConstants.{MAX_DEPTH, MAX_POLLED};
    ghost use Rattle.ca_base.specs.objects.CompletionQueue.{empty_cq, is_too_small, after_reserve, after_release, after_puts, after_polls, is_in_use, source_in, without_completions, receives_of};
    ghost use Rattle.ca_cq.specs.declared.cq_error.CqError.TheVariants.{TooSmall};

    /// The empty queue of a capacity, which is 1 to 4096. `Memory` is its only refusal.
    pub fn create(alloc: Global, capacity: u16) -> Result<Cq, Memory>
        ensures { IfOk result (λ q. q ≡ empty_cq capacity) }
    {
        Ok(Cq {
            reservations: Vec::new(alloc),
            waiting: HeapCircularBuffer::with_capacity(alloc, usize::from(capacity))?,
        })
    }

    /// Reserves room for so many completions of one side of a queue pair, which has no reservation here yet. A further
    /// user of a shared receive queue takes no more room. `TooSmall` comes exactly where the reservations would exceed the
    /// capacity, and then `Memory`. It takes time by the square of the number of reservations.
    pub fn reserve(&mut self, who: Reserve, n: u16) -> Result<(), CqError>
        ensures ok { OnOk result (self.new ≡ after_reserve who n self.old) }
        ensures too_small { (result ≡ Err TooSmall) ↔ IsTrue (is_too_small who n self.old) }
        ensures err { OnErr result (self.new ≡ self.old) }
    {
        if self.is_too_small(who, n) {
            return Err(CqError::TooSmall);
        }
        self.reservations.insert(0, Reservation { who, room: n })?;
        Ok(())
    }

    /// Whether the capacity is too small for one more reservation, which `reserve` then refuses. It takes time by the
    /// square of the number of reservations.
    pub fn is_too_small(&self, who: Reserve, n: u16) -> bool
        ensures { result ≡ is_too_small who n self.now }
    {
        let reservations = self.reservations.as_slice();
        let room = room_taken(reservations, who, n).saturating_add(room_reserved(reservations));
        room as usize > self.waiting.capacity()
    }

    /// Whether the capacity is too small for a second reservation once a first one stands, as that of the receives of a
    /// queue pair whose sends complete here too. It takes time by the square of the number of reservations.
    pub fn is_too_small_after(&self, first: Reserve, room: u16, who: Reserve, n: u16) -> bool
        ensures { result ≡ is_too_small who n (after_reserve first room self.now) }
    {
        let reservations = self.reservations.as_slice();
        let taken = room_taken(reservations, first, room);
        let first = Reservation { who: first, room };
        let more = room_taken_behind(first, reservations, who, n);
        let all = room_reserved(reservations).saturating_add(taken + more);
        all as usize > self.waiting.capacity()
    }

    /// Frees what this side of the queue pair reserved. It takes no memory, as none of the calls below does.
    pub fn release(&mut self, who: Reserve)
        ensures { self.new ≡ after_release who self.old }
    {
        self.reservations
            .retain(|reservation| !is_same_side(reservation.who, who));
    }

    /// Puts a completion behind the others. Its condition is that fewer wait than the capacity. That is so where the
    /// completion's reservation has room left, in a queue that only such puts came to: `reservation_makes_room` says it.
    pub fn put(&mut self, completion: Completion)
        requires { length self.old.waiting < self.old.capacity }
        ensures { self.new ≡ after_puts (completion ∷ []) self.old }
    {
        self.waiting.push_back(completion);
    }

    /// Puts these completions behind the others, in their order. Its condition is that there is room for all of them.
    pub fn put_all(&mut self, completions: &[Completion])
        requires { length self.old.waiting + length completions.now ≤ self.old.capacity }
        ensures { self.new ≡ after_puts completions.now self.old }
    {
        self.waiting.fill_from_slice(completions);
    }

    /// Takes the first completion. None comes exactly where none waits.
    pub fn poll_first(&mut self) -> Option<Completion>
        ensures completion { result ≡ slice_get self.old.waiting 0 }
        ensures queue { self.new ≡ after_polls 1 self.old }
    {
        self.waiting.pop_front()
    }

    /// Takes the first completions, as many as are asked for or as wait.
    pub fn poll(&mut self, n: u8) -> ArrayVec<Completion, MAX_POLLED>
        requires { n ≤ MAX_POLLED }
        ensures completions { result.items ≡ take n self.old.waiting }
        ensures queue { self.new ≡ after_polls n self.old }
    {
        let mut completions = ArrayVec::new();
        for _ in 0..n {
            if let Some(completion) = self.waiting.pop_front() {
                completions.push(completion);
            }
        }
        completions
    }

    /// The completion with so many in front of it, which stays. None comes exactly where no more wait.
    pub fn at(&self, i: u16) -> Option<Completion>
        ensures { result ≡ slice_get self.now.waiting i }
    {
        self.waiting.get(usize::from(i)).copied()
    }

    /// Whether a reservation stands.
    pub fn in_use(&self) -> bool
        ensures { result ≡ is_in_use self.now }
    {
        !self.reservations.is_empty()
    }

    /// The shared receive queue for which a queue pair reserved here as a user. None comes exactly where it reserved for
    /// none.
    pub fn source(&self, queue: QueueId) -> Option<u16>
        ensures { result ≡ source_in self.now.reservations queue }
    {
        source_in(self.reservations.as_slice(), queue)
    }

    /// Removes the completions of a queue pair, of which at most `MAX_DEPTH` are of receives, and gives the places of
    /// those, in order. It takes time by how many completions wait.
    pub fn drop_queue(&mut self, queue: QueueId) -> ArrayVec<u64, MAX_DEPTH>
        requires { length (receives_of queue self.old) ≤ MAX_DEPTH }
        ensures places { result.items ≡ receives_of queue self.old }
        ensures queue { self.new ≡ without_completions queue self.old }
    {
        let places = places_of(&self.waiting, queue);
        remove(&mut self.waiting, &Dropped(queue));
        places
    }
}
