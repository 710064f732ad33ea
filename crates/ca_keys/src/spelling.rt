ghost use Rattle.std.specs.Prelude.{Some};
ghost use Rattle.ca_keys.specs.Spelling.{address_text, perhaps_output};

use std::fmt;

/// An address as it prints: `0x` and hexadecimal digits without leading zeros.
#[derive(Clone, Copy)]
pub struct Address(pub u64);

impl fmt::Display for Address {
    ghost output = { λ address. Some (address_text address.0) };

    fn fmt<W: fmt::Write>(&self, f: &mut fmt::Formatter<W>) -> fmt::Result {
        let address = self.0;
        write!(f, "0x{address:x}")
    }
}

/// A value that may be missing, as it prints: the value, or `-`.
#[derive(Clone, Copy)]
pub struct Perhaps<T>(pub Option<T>);

impl<T: fmt::Display> fmt::Display for Perhaps<T> {
    ghost output = { λ value. perhaps_output T.output value.0 };

    fn fmt<W: fmt::Write>(&self, f: &mut fmt::Formatter<W>) -> fmt::Result {
        match &self.0 {
            None => f.write_str("-"),
            Some(value) => write!(f, "{value}"),
        }
    }
}
