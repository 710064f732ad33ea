/// Why bytes are no packet: the first of these, in the order of the tests, that holds.
#[derive(Clone, Copy, Debug, PartialEq, Eq)]
pub enum WireError {
    /// Fewer bytes than the base transport header has, or than the headers of the opcode have.
    TooShort,
    /// The header version is not 0.
    Version,
    /// The opcode is not in the table.
    Opcode,
    /// What follows the headers is no multiple of four bytes, stands where no payload may stand, or holds more
    /// payload than the largest path MTU.
    Length,
    /// Pad bytes are counted where nothing follows the headers.
    Pad,
}
