use crate::taken::{TakenPlace, TakenPlaces};
use ca_base::{Memory, PlacedReceive, RecvRequest};
use circular_buffer::HeapCircularBuffer;
use std::alloc::Global;
use std::marker::Model;

/// A shared receive queue. Contracts see its depth, the place of the next receive to be posted, the receives that wait
/// with their places, and the places that were taken and still occupy the queue, in the order in which they were taken.
#[derive(Drop)]
pub struct Srq {
    next: u64,
    waiting: HeapCircularBuffer<PlacedReceive>,
    /// How many places were taken and still occupy the queue. Which these are, only contracts say.
    taken_count: u16,
    taken: TakenPlaces,
}

impl Model for Srq {
    ghost use Rattle.std.specs.Prelude.{◌≡◌, ◌+◌, ◌<◌, ◌≤◌, ◌^◌, length};
    ghost use Rattle.ca_base.specs.objects.SharedReceives.{SharedReceives};

    ghost Value = { SharedReceives };

    ghost view = { λ s. record {
      depth = s.waiting.capacity;
      next = s.next;
      waiting = s.waiting.items;
      taken = s.taken.places;
    } };

    ghost invariant = { λ s. (s.next < 2 ^ 64) × (s.waiting.capacity < 2 ^ 16) × (length s.taken.places ≡ s.taken_count) × (length s.waiting.items + s.taken_count ≤ s.waiting.capacity) };
}

impl Srq {
    ghost use Rattle.std.specs.Prelude.{◌≡◌, ◌-◌, ◌<◌, ◌^◌, ◌↔◌, suc, length, IfOk, IfErr, IsOk, IsTrue, not, option_copied, true};
    ghost use Rattle.std.specs.Option.{option_map};
    ghost use Rattle.ca_base.specs.objects.SharedReceives.{empty_receives, occupied_receives, is_full_of_receives, after_receive_post, first_receive, after_receive_take, after_receive_retire};
    ghost use Rattle.ca_srq.specs.Taken.{stands_once};

    /// The empty queue of a depth, which is 1 to 256. `Memory` is its only refusal.
    pub fn create(alloc: Global, depth: u16) -> Result<Srq, Memory>
        ensures { IfOk result (λ s. s ≡ empty_receives depth) }
    {
        let capacity = usize::from(depth);
        Ok(Srq {
            next: 0,
            waiting: HeapCircularBuffer::with_capacity(alloc, capacity)?,
            taken_count: 0,
            taken: TakenPlaces::none(),
        })
    }

    /// Posts a receive and gives its posting place, counted from 0. The receive comes back exactly where the queue is
    /// full. It takes no memory.
    pub fn post(&mut self, receive: RecvRequest) -> Result<u64, RecvRequest>
        requires { suc self.old.next < 2 ^ 64 }
        ensures variant { IsOk result ↔ IsTrue (not (is_full_of_receives self.old)) }
        ensures ok { IfOk result (λ place. (place ≡ self.old.next) × (self.new ≡ after_receive_post receive self.old)) }
        ensures full { IfErr result (λ refused. (refused ≡ receive) × (self.new ≡ self.old)) }
    {
        if self.is_full() {
            return Err(receive);
        }
        let place = self.next;
        self.waiting.push_back(PlacedReceive { place, receive });
        self.next = place + 1;
        Ok(place)
    }

    /// Takes the next receive, whose place stays occupied. None comes exactly where none waits. It takes no memory.
    pub fn take_next(&mut self) -> Option<(u64, RecvRequest)>
        ensures receive { result ≡ option_map (λ p. (p.place, p.receive)) (first_receive self.old) }
        ensures queue { self.new ≡ after_receive_take self.old }
    {
        match self.waiting.pop_front() {
            Some(PlacedReceive { place, receive }) => {
                self.taken_count += 1;
                self.taken = TakenPlaces::with(&self.taken, &TakenPlace { place });
                Some((place, receive))
            }
            None => None,
        }
    }

    /// The receive that `take_next` would take. None comes exactly where none waits. It takes no memory.
    pub fn first(&self) -> Option<&RecvRequest>
        ensures { option_copied result ≡ option_map (λ p. p.receive) (first_receive self.now) }
    {
        match self.waiting.front() {
            Some(first) => Some(&first.receive),
            None => None,
        }
    }

    /// The posting place of the receive that `take_next` would take. None comes exactly where none waits. It takes no
    /// memory.
    pub fn first_place(&self) -> Option<u64>
        ensures { result ≡ option_map (λ p. p.place) (first_receive self.now) }
    {
        match self.waiting.front() {
            Some(first) => Some(first.place),
            None => None,
        }
    }

    /// How many receives wait to be taken. It takes no memory.
    pub fn waiting(&self) -> u16
        ensures { result ≡ length self.now.waiting }
    {
        self.waiting.len() as u16
    }

    /// Whether all places are occupied. It takes no memory.
    pub fn is_full(&self) -> bool
        ensures { result ≡ is_full_of_receives self.now }
    {
        self.waiting.len() + usize::from(self.taken_count) >= self.waiting.capacity()
    }

    /// How many places there are. It takes no memory.
    pub fn depth(&self) -> u16
        ensures { result ≡ self.now.depth }
    {
        self.waiting.capacity() as u16
    }

    /// How many places are occupied. It takes no memory.
    pub fn occupied(&self) -> u16
        ensures { result ≡ occupied_receives self.now }
    {
        self.waiting.len() as u16 + self.taken_count
    }

    /// Frees this place alone, where it was taken and stands there once. The caller knows whether it does; else one place
    /// fewer is occupied all the same. It takes no memory, and the same time however many places are taken.
    pub fn retire(&mut self, place: u64)
        ensures freed { stands_once place self.old.taken ≡ true → self.new ≡ after_receive_retire place self.old }
        ensures fewer { length self.new.taken ≡ length self.old.taken - 1 }
        ensures next { self.new.next ≡ self.old.next }
        ensures depth { self.new.depth ≡ self.old.depth }
        ensures waiting { self.new.waiting ≡ self.old.waiting }
    {
        self.taken_count = self.taken_count.saturating_sub(1);
        self.taken = TakenPlaces::without(&self.taken, &TakenPlace { place });
    }
}
