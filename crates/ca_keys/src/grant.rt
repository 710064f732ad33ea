use crate::access::Ask;
use crate::key::Key;
use crate::lists::Runs;
use crate::names::{DomainId, QueueId};
use crate::rights::Rights;

/// What a key in force grants: to the queue pairs of a domain, or to one of them, the rights over `length` addresses
/// from `address` on. The addresses stand for the bytes of `runs`, in order. `local` says that the key may be used as
/// an L_Key, which holds of regions alone.
#[derive(Clone, Drop)]
pub struct Grant {
    pub key: Key,
    pub domain: DomainId,
    pub queue: Option<QueueId>,
    pub local: bool,
    pub address: u64,
    pub length: u32,
    pub rights: Rights,
    pub runs: Runs,
}

impl Grant {
    ghost use Rattle.std.specs.Prelude.{◌≡◌};
    ghost use Rattle.ca_keys.specs.Allowed as allowed;

    /// Whether the grant has the key and the domain of the ask, and may be used as an L_Key where one is asked.
    pub fn fits(&self, ask: &Ask) -> bool
        ensures { result ≡ allowed.fits ask.now self.now }
    {
        self.key == ask.key && self.domain == ask.domain && (!ask.local || self.local)
    }
}
