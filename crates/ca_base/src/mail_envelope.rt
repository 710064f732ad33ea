use crate::lot::Lot;
use ca_keys::Bytes;

/// A packet under way: what the weather does to it, its bytes, and how often it was delivered.
#[derive(Drop)]
pub struct MailEnvelope {
    pub lot: Lot,
    pub bytes: Bytes,
    pub delivered: u64,
}
