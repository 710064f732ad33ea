use ca_base::Key;

/// What is left of a READ that waits to be answered.
#[derive(Clone, Copy)]
pub struct ReadLeft {
    /// The PSN of its next response.
    pub psn: u64,
    pub key: Key,
    pub address: u64,
    /// The bytes that are left.
    pub left: u32,
    /// Whether no response was sent yet.
    pub first: bool,
    /// The envelope of its request.
    pub envelope: Option<u64>,
    pub duplicate: bool,
}
