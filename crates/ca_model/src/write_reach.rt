use ca_base::Key;

/// What a WRITE packet reaches.
#[derive(Clone, Copy)]
pub struct WriteReach {
    pub key: Key,
    /// Where it goes on.
    pub address: u64,
    /// The bytes of the message that are left.
    pub left: u32,
    /// The bytes of the whole message.
    pub whole: u32,
}
