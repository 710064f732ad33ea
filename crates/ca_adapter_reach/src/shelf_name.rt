use ca_keys::{DomainId, QueueId, Slot};

/// What names things on a shelf.
pub trait ShelfName: Copy {
    ghost use Rattle.std.specs.Prelude.{◌≡◌, Bool, true};

    // the names are the same
    ghost same: { Self → Self → Bool };

    // names that are the same are one
    ghost path: { (a b : Self) → same a b ≡ true → a ≡ b };

    /// Whether the names are the same.
    fn is(&self, other: &Self) -> bool
        ensures { result ≡ same self.now other.now };
}

impl ShelfName for DomainId {
    ghost use Rattle.ca_keys.specs.Equal.{domain_eq};
    ghost use Rattle.ca_adapter_reach.specs.Paths.{domain_path};

    ghost same = { domain_eq };

    ghost path = { domain_path };

    fn is(&self, other: &DomainId) -> bool {
        *self == *other
    }
}

impl ShelfName for Slot {
    ghost use Rattle.ca_keys.specs.Equal.{slot_eq};
    ghost use Rattle.ca_adapter_reach.specs.Paths.{slot_path};

    ghost same = { slot_eq };

    ghost path = { slot_path };

    fn is(&self, other: &Slot) -> bool {
        *self == *other
    }
}

impl ShelfName for QueueId {
    ghost use Rattle.ca_keys.specs.Equal.{queue_eq};
    ghost use Rattle.ca_adapter_reach.specs.Paths.{queue_path};

    ghost same = { queue_eq };

    ghost path = { queue_path };

    fn is(&self, other: &QueueId) -> bool {
        *self == *other
    }
}
