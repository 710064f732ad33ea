/// Where a packet's PSN lies, seen from the expected one.
#[derive(Clone, Copy, Debug, PartialEq, Eq)]
pub enum Class {
    /// It is the expected PSN.
    Expected,
    /// It is one of the 2^23 PSNs before the expected one, this many before it: 1 to 2^23.
    Duplicate(u32),
    /// It is one of the 2^23 - 1 PSNs after the expected one.
    Ahead,
}
