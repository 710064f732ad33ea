use crate::access::Denial;
use crate::lists::Bytes;

/// What came of an access: the bytes that were read or written, the number that an atomic found and the one that it
/// put, or the part of the key check that failed.
#[derive(Clone, Drop)]
pub enum Verdict {
    Read(Bytes),
    Wrote(Bytes),
    Swapped { found: u64, put: u64 },
    Denied(Denial),
}
