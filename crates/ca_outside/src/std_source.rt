ghost use Rattle.std.specs.Prelude.{◌≡◌, ◌≤◌, length, IfOk, OnOk, OnErr, None};
ghost use Rattle.std.specs.Io.KnownBytes.{ReadConsumes};
ghost use Rattle.ca_outside.specs.Outside.{next_count, HasCause};

use crate::source::{Failed, Source};
use std::io::Read;
use std::marker::Model;

/// A source over a reader of std, the edge to the real outside. As a source it tells nothing of the bytes: what a
/// real reader will give is not known. Its count of faults rises at each error of the reader and stands still at the
/// end of its type.
#[derive(Drop)]
pub struct StdSource<R: Read> {
    reader: R,
    faults: u64,
}

impl<R: Read> Model for StdSource<R> {
    ghost use Rattle.ca_outside.specs.Outside.{EdgeView};

    ghost Value = { EdgeView };

    ghost view = { λ s. record { known = R.remaining s.reader; faults = s.faults } };
}

impl<R: Read> StdSource<R> {
    /// A source over this reader, with no fault yet. It takes no memory.
    pub fn over(reader: R) -> StdSource<R>
        ensures { result ≡ record { known = R.remaining reader; faults = 0 } }
    {
        StdSource { reader, faults: 0 }
    }
}

impl<R: Read> Source for StdSource<R> {
    ghost left = { λ _. None };

    ghost faults = { λ s. s.faults };

    /// Reads once from the reader. Each of its errors, an interruption too, is a fault.
    fn read(&mut self, into: &mut [u8]) -> Result<usize, Failed>
        ensures count { IfOk result (λ n. n ≤ length into.new) }
        ensures bytes { ReadConsumes self.old.known self.new.known result into.new }
        ensures ok { OnOk result (self.new.faults ≡ self.old.faults) }
        ensures err { OnErr result (self.new.faults ≡ next_count self.old.faults) }
        ensures cause { HasCause self.old.faults self.new.faults result }
    {
        match self.reader.read(into) {
            Ok(count) => Ok(count),
            Err(_) => {
                self.faults = self.faults.saturating_add(1);
                Err(Failed)
            }
        }
    }
}
