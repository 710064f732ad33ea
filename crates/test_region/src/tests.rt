mod changes;
mod fast_registrations;
mod places;
mod registrations;

use ca_base::{DomainId, Grant, Key, RegionError, RegistrationError, Rights, Run, Slot};
use ca_region::Region;
use std::process::Abort;

/// Its keys have the index 2 * 0x10000 + 5.
const SLOT: Slot = Slot {
    domain: DomainId {
        adapter: 1,
        domain: 2,
    },
    slot: 5,
};

/// The key of the slot with the low byte 7.
const KEY: Key = Key(0x0200_0507);

const WRITE: Rights = Rights {
    local_write: true,
    remote_read: false,
    remote_write: true,
    remote_atomic: false,
    window_bind: false,
};

const WRITE_ALONE: Rights = Rights {
    local_write: false,
    remote_read: false,
    remote_write: true,
    remote_atomic: false,
    window_bind: false,
};

const ATOMIC_ALONE: Rights = Rights {
    local_write: false,
    remote_read: true,
    remote_write: false,
    remote_atomic: true,
    window_bind: true,
};

fn holds(rt: &impl Abort, is: bool, what: &str) {
    assert!(rt; is, "{what}");
}

fn run(offset: u32, length: u32) -> Run {
    Run {
        adapter: 1,
        buffer: 3,
        offset,
        length,
    }
}

/// Why a registration is refused, if it is.
fn reason_of(given: &Result<Grant, RegistrationError>) -> Option<RegionError> {
    match given {
        Err(RegistrationError::Refused(error)) => Some(*error),
        Ok(_) | Err(RegistrationError::Memory) => None,
    }
}

/// The key that is valid, as others see it.
fn key_of(region: &Region) -> Option<Key> {
    let view = region.view();
    if view.valid { Some(view.key) } else { None }
}
