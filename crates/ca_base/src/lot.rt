ghost use Rattle.std.specs.Prelude.{Some};
ghost use Rattle.ca_base.specs.Spelling.{lot_text};

use std::fmt;

/// What the weather of the fabric does to a packet that is sent.
#[derive(Clone, Copy)]
pub enum Lot {
    /// It is to be delivered once.
    Pass,
    /// It is lost.
    Lose,
    /// It is to be delivered once, and so many times more.
    Repeat(u8),
    /// It is to be delivered once so many later packets were, or only held ones are left.
    Hold(u8),
}

impl fmt::Display for Lot {
    ghost output = { λ lot. Some (lot_text lot) };

    fn fmt<W: fmt::Write>(&self, f: &mut fmt::Formatter<W>) -> fmt::Result {
        match self {
            Lot::Pass => f.write_str("pass"),
            Lot::Lose => f.write_str("lose"),
            Lot::Repeat(count) => write!(f, "repeat:{count}"),
            Lot::Hold(count) => write!(f, "hold:{count}"),
        }
    }
}
