ghost use Rattle.std.specs.Prelude.{◌≡◌, ◌-◌, ◌++◌, ◌<◌, ◌≤◌, [], min, length, take, is_err, IfOk, OnErr, Some};
ghost use Rattle.ca_outside.specs.Outside.{next_count, is_full_for, HasCause};

use crate::sink::Sink;
use crate::source::Failed;
use ca_base::Memory;
use std::alloc::Global;
use std::marker::Model;

/// A sink in memory, whose room is reserved when it is made. The count of faults stands still at the end of its type.
#[derive(Drop)]
pub struct SureSink {
    bytes: Vec<u8>,
    room: usize,
    faults: u64,
}

impl Model for SureSink {
    ghost use Rattle.std.specs.Prelude.{◌≤◌, vec_len};
    ghost use Rattle.std.specs.Vec.{vec_capacity};
    ghost use Rattle.ca_outside.specs.Outside.{SureSinkView};

    ghost Value = { SureSinkView };

    ghost view = { λ s. record { held = s.bytes.items; room = s.room; faults = s.faults } };

    ghost invariant = { λ s. (vec_len s.bytes ≤ s.room) × (s.room ≤ vec_capacity s.bytes) };
}

impl SureSink {
    /// An empty sink with room for `room` bytes.
    pub fn new(alloc: Global, room: usize) -> Result<SureSink, Memory>
        ensures { IfOk result (λ sink. sink ≡ record { held = []; room = room; faults = 0 }) }
    {
        Ok(SureSink {
            bytes: Vec::with_capacity(alloc, room)?,
            room,
            faults: 0,
        })
    }

    /// The bytes that the sink took, in order.
    pub fn taken(&self) -> &[u8]
        ensures { result.now ≡ self.now.held }
    {
        self.bytes.as_slice()
    }

    pub(crate) fn count_fault(&mut self)
        ensures counted { self.new ≡ record self.old { faults = next_count self.old.faults } }
        ensures never_falls { self.old.faults ≤ self.new.faults }
    {
        self.faults = self.faults.saturating_add(1);
    }
}

impl Sink for SureSink {
    ghost held = { λ s. Some s.held };

    ghost faults = { λ s. s.faults };

    /// Takes what still fits. It fails exactly where the room is full and the piece is not empty.
    fn write(&mut self, bytes: &[u8]) -> Result<usize, Failed>
        ensures fails { is_err result ≡ is_full_for self.old.held self.old.room bytes.now }
        ensures count { IfOk result (λ n. n ≡ min (length bytes.now) (self.old.room - length self.old.held)) }
        ensures ok { IfOk result (λ n. self.new ≡ record self.old { held = self.old.held ++ take n bytes.now }) }
        ensures err { OnErr result (self.new ≡ record self.old { faults = next_count self.old.faults }) }
        ensures some { IfOk result (λ n. 0 < length bytes.now → 0 < n) }
        ensures cause { HasCause self.old.faults self.new.faults result }
    {
        let fits = self.room - self.bytes.len();
        if fits == 0 && !bytes.is_empty() {
            self.count_fault();
            return Err(Failed);
        }
        let count = bytes.len().min(fits);
        self.bytes.extend_from_slice(&bytes[..count]).unwrap();
        Ok(count)
    }
}
