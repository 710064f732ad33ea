use ca_base::{Bytes, Place};

/// Bytes for a place and those behind it.
#[derive(Drop)]
pub struct Stretch {
    pub at: Place,
    pub bytes: Bytes,
}
