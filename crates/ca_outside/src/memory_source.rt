ghost use Rattle.std.specs.Prelude.{◌≡◌, ◌++◌, [], min, length, take, drop, is_err, IfOk, OnErr, Some};
ghost use Rattle.ca_outside.specs.Outside.{next_count, is_failing_call, HasCause};

use crate::source::{Failed, Source};
use std::marker::Model;

/// A source in memory whose calls of given numbers fail, counted from 0. The number of the next call and the count
/// of faults stand still at the end of their type.
#[derive(Drop)]
pub struct MemorySource {
    bytes: Vec<u8>,
    at: usize,
    fail: Vec<u64>,
    call: u64,
    faults: u64,
}

impl Model for MemorySource {
    ghost use Rattle.std.specs.Prelude.{drop, ◌≤◌, vec_len};
    ghost use Rattle.ca_outside.specs.Outside.{MemorySourceView};

    ghost Value = { MemorySourceView };

    ghost view = { λ s. record {
      left = drop s.at s.bytes.items;
      fail = s.fail.items;
      call = s.call;
      faults = s.faults;
    } };

    ghost invariant = { λ s. s.at ≤ vec_len s.bytes };
}

impl MemorySource {
    /// A source of these bytes. It takes no memory.
    pub fn new(bytes: Vec<u8>, fail: Vec<u64>) -> MemorySource
        ensures { result ≡ record { left = bytes.items; fail = fail.items; call = 0; faults = 0 } }
    {
        MemorySource {
            bytes,
            at: 0,
            fail,
            call: 0,
            faults: 0,
        }
    }
}

impl Source for MemorySource {
    ghost left = { λ s. Some s.left };

    ghost faults = { λ s. s.faults };

    /// Gives as many bytes as there is room for and as are left. It fails exactly where the number of the call is
    /// one of those that fail; then `into` stays as it was.
    fn read(&mut self, into: &mut [u8]) -> Result<usize, Failed>
        ensures fails { is_err result ≡ is_failing_call self.old.fail self.old.call }
        ensures count { IfOk result (λ n. n ≡ min (length into.old) (length self.old.left)) }
        ensures bytes { IfOk result (λ n. into.new ≡ take n self.old.left ++ drop n into.old) }
        ensures ok { IfOk result (λ n. self.new ≡ record self.old {
          left = drop n self.old.left;
          call = next_count self.old.call;
        }) }
        ensures same { OnErr result (into.new ≡ into.old) }
        ensures err { OnErr result (self.new ≡ record self.old {
          call = next_count self.old.call;
          faults = next_count self.old.faults;
        }) }
        ensures cause { HasCause self.old.faults self.new.faults result }
    {
        let fails = self.fail.contains(&self.call);
        self.call = self.call.saturating_add(1);
        if fails {
            self.faults = self.faults.saturating_add(1);
            return Err(Failed);
        }
        let rest = &self.bytes[self.at..];
        let count = rest.len().min(into.len());
        into[..count].copy_from_slice(&rest[..count]);
        self.at += count;
        Ok(count)
    }
}
