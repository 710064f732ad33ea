ghost use Rattle.std.specs.Prelude.{◌≡◌, ◌-◌, ◌++◌, ◌<◌, ◌||◌, [], min, length, take, is_err, IfOk, OnErr, Some};
ghost use Rattle.ca_outside.specs.Outside.{next_count, is_failing_call, is_full_for, HasCause};

use crate::sink::Sink;
use crate::source::Failed;
use crate::sure_sink::SureSink;
use ca_base::Memory;
use std::alloc::Global;
use std::marker::Model;

/// A sink in memory that takes at most `most` bytes in a call, and whose calls of given numbers fail, counted from 0.
/// The number of the next call and the count of faults stand still at the end of their type.
#[derive(Drop)]
pub struct MemorySink {
    sink: SureSink,
    fail: Vec<u64>,
    call: u64,
    most: usize,
}

impl Model for MemorySink {
    ghost use Rattle.std.specs.Prelude.{◌<◌};
    ghost use Rattle.ca_outside.specs.Outside.{MemorySinkView};

    ghost Value = { MemorySinkView };

    ghost view = { λ s. record {
      held = s.sink.held;
      room = s.sink.room;
      faults = s.sink.faults;
      fail = s.fail.items;
      call = s.call;
      most = s.most;
    } };

    ghost invariant = { λ s. 0 < s.most };
}

impl MemorySink {
    /// An empty sink with room for `room` bytes.
    pub fn new(
        alloc: Global,
        room: usize,
        fail: Vec<u64>,
        most: usize,
    ) -> Result<MemorySink, Memory>
        requires { 0 < most }
        ensures { IfOk result (λ sink. sink ≡ record {
          held = [];
          room = room;
          faults = 0;
          fail = fail.items;
          call = 0;
          most = most;
        }) }
    {
        Ok(MemorySink {
            sink: SureSink::new(alloc, room)?,
            fail,
            call: 0,
            most,
        })
    }

    /// The bytes that the sink took, in order.
    pub fn taken(&self) -> &[u8]
        ensures { result.now ≡ self.now.held }
    {
        self.sink.taken()
    }
}

impl Sink for MemorySink {
    ghost held = { λ s. Some s.held };

    ghost faults = { λ s. s.faults };

    /// Takes what still fits, at most `most` bytes. It fails exactly where the number of the call is one of those
    /// that fail, or the room is full and the piece is not empty.
    fn write(&mut self, bytes: &[u8]) -> Result<usize, Failed>
        ensures fails { is_err result ≡ (is_failing_call self.old.fail self.old.call
            || is_full_for self.old.held self.old.room bytes.now) }
        ensures count { IfOk result (λ n.
            n ≡ min (min (length bytes.now) self.old.most) (self.old.room - length self.old.held)) }
        ensures ok { IfOk result (λ n. self.new ≡ record self.old {
          held = self.old.held ++ take n bytes.now;
          call = next_count self.old.call;
        }) }
        ensures err { OnErr result (self.new ≡ record self.old {
          call = next_count self.old.call;
          faults = next_count self.old.faults;
        }) }
        ensures some { IfOk result (λ n. 0 < length bytes.now → 0 < n) }
        ensures cause { HasCause self.old.faults self.new.faults result }
    {
        let fails = self.fail.contains(&self.call);
        self.call = self.call.saturating_add(1);
        if fails {
            self.sink.count_fault();
            return Err(Failed);
        }
        let most = bytes.len().min(self.most);
        self.sink.write(&bytes[..most])
    }
}
