use ca_base::{Bytes, Config, Items};

/// The bytes of each configured buffer, in rising adapter and buffer.
pub type Contents = Items<Bytes>;

/// What a fabric begins with: its configuration, and the bytes of its buffers, each of the configured length.
#[derive(Drop)]
pub struct Opening {
    pub config: Config,
    pub contents: Contents,
}
