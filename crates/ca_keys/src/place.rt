ghost use Rattle.std.specs.Prelude.{◌≡◌, Some};
ghost use Rattle.ca_keys.specs.Numbers as numbers;
ghost use Rattle.ca_keys.specs.Spelling.{run_text};

use std::fmt;

/// One byte of an adapter's memory.
#[derive(Clone, Copy)]
pub struct Place {
    pub adapter: u8,
    pub buffer: u16,
    pub offset: u32,
}

/// Bytes of one buffer, from an offset on.
#[derive(Clone, Copy, PartialEq, Eq)]
pub struct Run {
    pub adapter: u8,
    pub buffer: u16,
    pub offset: u32,
    pub length: u32,
}

impl fmt::Display for Run {
    ghost output = { λ run. Some (run_text run) };

    fn fmt<W: fmt::Write>(&self, f: &mut fmt::Formatter<W>) -> fmt::Result {
        let adapter = self.adapter;
        let buffer = self.buffer;
        let offset = self.offset;
        let length = self.length;
        write!(f, "{adapter}/{buffer}:{offset}+{length}")
    }
}

/// The places of the bytes that a packet touches: at most two runs, in the order of their addresses.
#[derive(Clone, Copy)]
pub struct Span {
    pub first: Run,
    pub second: Option<Run>,
}

/// The address of a buffer's first byte: `(buffer + 1) * 2^32` (this profile's choice).
pub fn first_address(buffer: u16) -> u64
    ensures { result ≡ numbers.first_address buffer }
{
    (u64::from(buffer) + 1) * 0x1_0000_0000
}
