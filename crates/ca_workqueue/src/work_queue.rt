use ca_base::Memory;
use circular_buffer::HeapCircularBuffer;
use std::alloc::Global;
use std::marker::Model;

/// A work queue of requests of a type. Contracts see its depth, the place of the first request that occupies it, the
/// requests from there on, and the place of the next one to take.
#[derive(Drop)]
pub struct WorkQueue<T> {
    first: u64,
    next_taken: u64,
    requests: HeapCircularBuffer<T>,
}

impl<T> Model for WorkQueue<T> {
    ghost use Rattle.std.specs.Prelude.{◌+◌, ◌<◌, ◌≤◌, ◌^◌, length};
    ghost use Rattle.ca_base.specs.objects.WorkQueue.{WorkQueue};

    ghost Value = { WorkQueue T };

    ghost view = { λ q. record {
      depth = q.requests.capacity;
      first = q.first;
      items = q.requests.items;
      next_taken = q.next_taken;
    } };

    ghost invariant = { λ q. (q.first + length q.requests.items < 2 ^ 64) × (q.requests.capacity < 2 ^ 16) × (length q.requests.items ≤ q.requests.capacity) };
}

impl<T> WorkQueue<T> {
    ghost use Rattle.std.specs.Prelude.{◌≡◌, ◌<◌, ◌≤◌, ◌^◌, ◌↔◌, suc, if◌then◌else◌, nat_lt, None, Some, IfOk, IfErr, IsOk, IsTrue, not, option_copied};
    ghost use Rattle.ca_base.specs.objects.WorkQueue.{empty_queue, next_place, is_full, occupied_count, with_item, item_at, waiting_count, after_take, with_all_taken};

    /// The empty queue of a depth, which is 1 to 256. `Memory` is its only refusal.
    pub fn create(alloc: Global, depth: u16) -> Result<WorkQueue<T>, Memory>
        ensures { IfOk result (λ q. q ≡ empty_queue depth) }
    {
        Ok(WorkQueue {
            first: 0,
            next_taken: 0,
            requests: HeapCircularBuffer::with_capacity(alloc, usize::from(depth))?,
        })
    }

    /// Posts a request and gives its posting place, counted from 0. The request comes back exactly where the queue is
    /// full. It takes no memory.
    #[inline(always)]
    pub fn post(&mut self, request: T) -> Result<u64, T>
        requires { suc (next_place self.old) < 2 ^ 64 }
        ensures variant { IsOk result ↔ IsTrue (not (is_full self.old)) }
        ensures ok { IfOk result (λ place. (place ≡ next_place self.old) × (self.new ≡ with_item request self.old)) }
        ensures full { IfErr result (λ refused. (refused ≡ request) × (self.new ≡ self.old)) }
    {
        let place = self.first + self.requests.len() as u64;
        self.requests.try_push_back(request)?;
        Ok(place)
    }

    /// Takes the next request, which stays readable and still occupies its place, and gives that place. None comes
    /// exactly where no request waits. It takes no memory.
    pub fn take_next(&mut self) -> Option<u64>
        ensures place { result ≡ (if nat_lt 0 (waiting_count self.old) then Some self.old.next_taken else None) }
        ensures queue { self.new ≡ (if nat_lt 0 (waiting_count self.old) then after_take self.old else self.old) }
    {
        let place = self.next_taken;
        if place >= self.first + self.requests.len() as u64 {
            return None;
        }
        self.next_taken = place + 1;
        Some(place)
    }

    /// The request at a place. None comes exactly where the place is not occupied. It takes no memory.
    pub fn get(&self, place: u64) -> Option<&T>
        ensures { option_copied result ≡ item_at place self.now }
    {
        if place < self.first {
            return None;
        }
        self.requests.get((place - self.first) as usize)
    }

    /// Takes all requests that wait. It takes no memory.
    pub fn take_all(&mut self)
        ensures { self.new ≡ with_all_taken self.old }
    {
        self.next_taken = self.first + self.requests.len() as u64;
    }

    /// The place of the next request to be posted. It takes no memory.
    pub fn next_place(&self) -> u64
        ensures { result ≡ next_place self.now }
    {
        self.first + self.requests.len() as u64
    }

    /// How many requests wait to be taken, of a queue in which none was freed before it was taken. It takes no memory.
    pub fn waiting(&self) -> u16
        requires { self.now.first ≤ self.now.next_taken }
        ensures { result ≡ waiting_count self.now }
    {
        let next = self.first + self.requests.len() as u64;
        next.saturating_sub(self.next_taken) as u16
    }

    /// Whether all places are occupied. It takes no memory.
    pub fn is_full(&self) -> bool
        ensures { result ≡ is_full self.now }
    {
        self.requests.len() >= self.requests.capacity()
    }

    /// How many places there are. It takes no memory.
    pub fn depth(&self) -> u16
        ensures { result ≡ self.now.depth }
    {
        self.requests.capacity() as u16
    }

    /// How many places are occupied. It takes no memory.
    pub fn occupied(&self) -> u16
        ensures { result ≡ occupied_count self.now }
    {
        self.requests.len() as u16
    }
}

impl<T: Drop> WorkQueue<T> {
    ghost use Rattle.std.specs.Prelude.{◌≡◌, ◌<◌, ◌^◌, suc};
    ghost use Rattle.ca_base.specs.objects.WorkQueue.{empty_queue, after_retire};

    /// Frees all places up to this one. It takes no memory, and time by how many requests it frees. One request, which is
    /// freed most often, is taken by itself.
    pub fn retire(&mut self, place: u64)
        requires { suc place < 2 ^ 64 }
        ensures { self.new ≡ after_retire place self.old }
    {
        if place < self.first {
            return;
        }
        if place == self.first {
            let _ = self.requests.pop_front();
        } else {
            let next = self.first + self.requests.len() as u64;
            let left = next.saturating_sub(place + 1);
            self.requests.truncate_front(left as usize);
        }
        self.first = place + 1;
    }

    /// The queue is as `create` made it: nothing was posted. It takes no memory.
    pub fn reset(&mut self)
        ensures { self.new ≡ empty_queue self.old.depth }
    {
        self.requests.clear();
        self.first = 0;
        self.next_taken = 0;
    }
}
