use ca_keys::{Ask, Denial};

/// An ask that is denied, and the part of the key check that fails.
#[derive(Clone, Copy)]
pub struct DeniedAsk {
    pub ask: Ask,
    pub denial: Denial,
}
