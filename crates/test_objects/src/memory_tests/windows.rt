use super::holds;
use ca_base::{DomainId, Key, QueueId, RegionView, Rights, Slot};
use ca_window::{Window, WindowError};
use std::process::Abort;
use std::test::Fail;

const SLOT: Slot = Slot {
    domain: DomainId {
        adapter: 0,
        domain: 1,
    },
    slot: 2,
};

/// The key of the window's slot with the low byte 7: the index is 1 * 0x10000 + 0x8000 + 2.
const KEY: Key = Key(0x0180_0207);

const QUEUE: QueueId = QueueId {
    adapter: 0,
    number: 513,
};

const OTHER_QUEUE: QueueId = QueueId {
    adapter: 0,
    number: 514,
};

const ALL: Rights = Rights {
    local_write: true,
    remote_read: true,
    remote_write: true,
    remote_atomic: true,
    window_bind: true,
};

const REMOTE: Rights = Rights {
    local_write: false,
    remote_read: true,
    remote_write: true,
    remote_atomic: true,
    window_bind: false,
};

const READ: Rights = Rights {
    local_write: false,
    remote_read: true,
    remote_write: false,
    remote_atomic: false,
    window_bind: false,
};

const READ_AND_BIND: Rights = Rights {
    local_write: false,
    remote_read: true,
    remote_write: false,
    remote_atomic: false,
    window_bind: true,
};

const FIRST: u64 = 0x1_0000_0100;

const REGION: RegionView = RegionView {
    valid: true,
    key: Key(0x0100_0301),
    rights: ALL,
    address: FIRST,
    length: 256,
};

const INVALID: RegionView = RegionView {
    valid: false,
    key: Key(0x0100_0301),
    rights: ALL,
    address: FIRST,
    length: 256,
};

const WITHOUT_BIND: RegionView = RegionView {
    valid: true,
    key: Key(0x0100_0301),
    rights: READ,
    address: FIRST,
    length: 256,
};

const WITHOUT_WRITE: RegionView = RegionView {
    valid: true,
    key: Key(0x0100_0301),
    rights: READ_AND_BIND,
    address: FIRST,
    length: 256,
};

/// The region that is seen, the range and the rights that a bind asks for, and why it is refused.
const BINDS: [(Option<RegionView>, (u64, u32), Rights, Option<WindowError>); 11] = [
    (None, (FIRST, 1), ALL, Some(WindowError::RegionNotValid)),
    (
        Some(INVALID),
        (FIRST, 1),
        ALL,
        Some(WindowError::RegionNotValid),
    ),
    (
        Some(WITHOUT_BIND),
        (0, 1),
        ALL,
        Some(WindowError::NoBindRight),
    ),
    (
        Some(WITHOUT_WRITE),
        (0, 1),
        ALL,
        Some(WindowError::RightsNeedLocalWrite),
    ),
    (Some(WITHOUT_WRITE), (FIRST, 1), READ, None),
    (
        Some(REGION),
        (FIRST - 1, 1),
        ALL,
        Some(WindowError::OutsideRegion),
    ),
    (
        Some(REGION),
        (FIRST, 257),
        ALL,
        Some(WindowError::OutsideRegion),
    ),
    (
        Some(REGION),
        (FIRST + 256, 1),
        ALL,
        Some(WindowError::OutsideRegion),
    ),
    (
        Some(REGION),
        (u64::MAX, u32::MAX),
        ALL,
        Some(WindowError::OutsideRegion),
    ),
    (Some(REGION), (FIRST + 255, 1), ALL, None),
    (Some(REGION), (FIRST, 256), ALL, None),
];

fn window(kind: u8) -> Window {
    let mut window = Window::vacant(SLOT);
    if kind == 1 || kind == 2 {
        window.allocate(kind);
    }
    window
}

fn bound2() -> Window {
    let mut window = window(2);
    let _ = window.bind2(7, QUEUE, Some(&REGION), FIRST, 256, ALL);
    window
}

fn error_is(rt: &impl Abort, error: Option<WindowError>, want: Option<WindowError>) {
    let number = error.map(|error| error as u8);
    assert_eq!(rt; number, want.map(|error| error as u8));
}

fn key_is(rt: &impl Abort, window: &Window, want: Option<Key>) {
    let key = window.view().map(|view| view.key.0);
    assert_eq!(rt; key, want.map(|key| key.0));
}

fn byte_is(rt: &impl Abort, byte: Option<u8>, want: Option<u8>) {
    assert_eq!(rt; byte, want);
}

#[test]
fn binds_are_refused_for_the_first_reason(rt: HostRuntime) {
    for row in BINDS.as_slice() {
        let (region, (address, length), rights, want) = *row;
        let mut one = window(1);
        let given = one.bind1(7, region.as_ref(), address, length, rights);
        error_is(&rt, given.err(), want);
        key_is(&rt, &one, if want.is_none() { Some(KEY) } else { None });
        let mut two = window(2);
        let given = two.bind2(7, QUEUE, region.as_ref(), address, length, rights);
        error_is(&rt, given.err(), want);
        key_is(&rt, &two, if want.is_none() { Some(KEY) } else { None });
    }
}

/// A window's type, the length of a bind of each type without a region, and why each is refused.
const TYPES: [(u8, u32, Option<WindowError>, Option<WindowError>); 6] = [
    (
        0,
        0,
        Some(WindowError::NoWindow),
        Some(WindowError::NoWindow),
    ),
    (
        0,
        1,
        Some(WindowError::NoWindow),
        Some(WindowError::NoWindow),
    ),
    (1, 0, None, Some(WindowError::WrongType)),
    (
        1,
        1,
        Some(WindowError::RegionNotValid),
        Some(WindowError::WrongType),
    ),
    (2, 0, Some(WindowError::WrongType), Some(WindowError::Empty)),
    (
        2,
        1,
        Some(WindowError::WrongType),
        Some(WindowError::RegionNotValid),
    ),
];

#[test]
fn binds_look_at_the_type_first(rt: HostRuntime) {
    for row in TYPES.as_slice() {
        let (kind, length, first, second) = *row;
        let mut window = window(kind);
        error_is(&rt, window.bind1(7, None, FIRST, length, ALL).err(), first);
        error_is(
            &rt,
            window.bind2(7, QUEUE, None, FIRST, length, ALL).err(),
            second,
        );
    }
    let mut bound = bound2();
    let again = bound.bind2(8, QUEUE, None, FIRST, 0, ALL);
    error_is(&rt, again.err(), Some(WindowError::StillBound));
    key_is(&rt, &bound, Some(KEY));
}

/// A key, a queue pair, and why they do not invalidate the bound type 2 window.
const INVALIDATIONS: [(Key, QueueId, Option<WindowError>); 4] = [
    (Key(0x0180_0208), OTHER_QUEUE, Some(WindowError::KeyDiffers)),
    (Key(0x0180_0208), QUEUE, Some(WindowError::KeyDiffers)),
    (KEY, OTHER_QUEUE, Some(WindowError::WrongQueue)),
    (KEY, QUEUE, None),
];

#[test]
fn invalidations_are_refused_for_the_first_reason(rt: HostRuntime) {
    error_is(
        &rt,
        window(0).invalidate(KEY, QUEUE).err(),
        Some(WindowError::NoWindow),
    );
    error_is(
        &rt,
        window(1).invalidate(KEY, QUEUE).err(),
        Some(WindowError::Type1),
    );
    error_is(
        &rt,
        window(2).invalidate(KEY, QUEUE).err(),
        Some(WindowError::NotBound),
    );
    for row in INVALIDATIONS.as_slice() {
        let (key, queue, want) = *row;
        let mut window = bound2();
        error_is(&rt, window.invalidate(key, queue).err(), want);
        key_is(&rt, &window, if want.is_some() { Some(KEY) } else { None });
    }
}

#[test]
fn keys_of_type_1_follow_the_drawn_bytes(rt: HostRuntime) -> Result<(), Fail> {
    let mut window = window(1);
    byte_is(&rt, window.draw(), Some(1));
    byte_is(&rt, window.draw(), Some(2));
    let _ = window.bind1(1, Some(&REGION), FIRST, 256, ALL);
    key_is(&rt, &window, Some(Key(0x0180_0201)));
    let _ = window.bind1(2, Some(&REGION), FIRST + 255, 1, ALL);
    let view = window.view().ok_or("it is bound")?;
    holds(
        &rt,
        view.key == Key(0x0180_0202) && view.queue.is_none(),
        "the later key",
    );
    holds(
        &rt,
        view.address == FIRST + 255 && view.length == 1,
        "the later range",
    );
    holds(&rt, view.rights == REMOTE, "remote rights alone");
    holds(&rt, window.region() == Some(3), "the region's slot");
    holds(
        &rt,
        window.deallocate() == Some(Key(0x0180_0202)),
        "the key that was in force",
    );
    holds(
        &rt,
        window.kind() == 0 && window.region().is_none(),
        "it is vacant",
    );
    window.allocate(2);
    byte_is(&rt, window.draw(), None);
    holds(&rt, window.deallocate().is_none(), "no key was in force");
    window.allocate(1);
    byte_is(&rt, window.draw(), Some(3));
    Ok(())
}
