ghost use Rattle.std.specs.Prelude.{◌≡◌, None, Some, IsTrue, false};
ghost use Rattle.ca_keys.specs.Numbers.{is_window_key};
ghost use Rattle.ca_localops.specs.Binds.{CountsBinding};
ghost use Rattle.ca_localops.specs.Requests.{IsBind};

use super::{counts_are, text_is, texts_are};
use ca_base::{DomainId, Key, OpRefusal, Pages, QueueId, Rights, Run, SendOp, Slot, WindowCount};
use ca_localops::{Marks2, OpError, bind, fast, invalidate};
use ca_region::Region;
use ca_window::Window;
use std::alloc::{AllocError, Global};
use std::process::Abort;
use std::test::Fail;

const DOMAIN: DomainId = DomainId {
    adapter: 0,
    domain: 0,
};

const QUEUE: QueueId = QueueId {
    adapter: 0,
    number: 256,
};

const OTHER_QUEUE: QueueId = QueueId {
    adapter: 0,
    number: 257,
};

const ALL: Rights = Rights {
    local_write: true,
    remote_read: true,
    remote_write: true,
    remote_atomic: true,
    window_bind: true,
};

const READ: Rights = Rights {
    local_write: false,
    remote_read: true,
    remote_write: false,
    remote_atomic: false,
    window_bind: false,
};

const READ_AND_BIND: Rights = Rights {
    local_write: false,
    remote_read: true,
    remote_write: false,
    remote_atomic: false,
    window_bind: true,
};

const WRITE: Rights = Rights {
    local_write: false,
    remote_read: false,
    remote_write: true,
    remote_atomic: false,
    window_bind: false,
};

const FIRST: u64 = 0x1_0000_0000;

/// The key of a region's first registration in slot 0, and in slot 1.
const KEY: Key = Key(0x1);

const NEXT_KEY: Key = Key(0x101);

fn slot(slot: u16) -> Slot
    ensures { result.slot ≡ slot }
{
    Slot {
        domain: DOMAIN,
        slot,
    }
}

// A region over the 4096 bytes of buffer 0.
fn region(alloc: Global, number: u16, rights: Rights) -> Region {
    let at = Run {
        adapter: 0,
        buffer: 0,
        offset: 0,
        length: 4096,
    };
    let mut region = Region::vacant();
    let _ = region.register(alloc, slot(number), at, 4096, rights);
    region
}

fn window(kind: u8) -> Window
    ensures { result.binding ≡ None }
{
    let mut window = Window::vacant(slot(0));
    if kind == 1 || kind == 2 {
        window.allocate(kind);
    }
    window
}

fn text(alloc: Global, given: Result<Marks2, OpError>) -> Result<String, AllocError> {
    match given {
        Ok(marks) => marks_text(alloc, &marks),
        Err(OpError::Refused(refusal)) => format!(in alloc; "{refusal}"),
        Err(OpError::Memory) => format!(in alloc; "memory"),
    }
}

fn marks_text(alloc: Global, marks: &Marks2) -> Result<String, AllocError> {
    let revoked = marks.revoked.unwrap_or_default();
    let granted = marks
        .granted
        .as_ref()
        .map(|grant| grant.key)
        .unwrap_or_default();
    format!(in alloc; "revoked {revoked} granted {granted}")
}

fn refusal_text(alloc: Global, given: Result<Marks2, OpRefusal>) -> Result<String, AllocError> {
    match given {
        Ok(marks) => marks_text(alloc, &marks),
        Err(refusal) => format!(in alloc; "{refusal}"),
    }
}

/// What a bind asks for: the region's key, the range and the rights.
#[derive(Clone, Copy)]
struct Asked(Key, u64, u32, Rights);

fn bind1(asked: Asked) -> SendOp
    ensures { IsBind result }
{
    SendOp::Bind1 {
        window: 0,
        region: asked.0,
        address: asked.1,
        length: asked.2,
        rights: asked.3,
    }
}

fn bind2(asked: Asked, low: u8) -> SendOp
    ensures { IsBind result }
{
    SendOp::Bind2 {
        window: 0,
        region: asked.0,
        low,
        address: asked.1,
        length: asked.2,
        rights: asked.3,
    }
}

fn is_counted(w: &Window, region: &Region) -> bool
    ensures { IsTrue result → CountsBinding w.now None (Some region.now) }
{
    w.region().is_none() || region.bound() > 0
}

// A bind over a region that is named; the window is unbound, or bound in it.
fn bind_in(
    alloc: Global,
    w: &mut Window,
    region: &mut Region,
    q: &mut WindowCount,
    op: SendOp,
    drawn: Option<u8>,
) -> Result<String, AllocError>
    requires { IsBind op }
{
    if !is_counted(w, region) || region.bound() == u32::MAX || q.count == u32::MAX {
        return format!(in alloc; "not counted");
    }
    text(
        alloc,
        bind(alloc, w, None, Some(region), q, &op, drawn, QUEUE),
    )
}

// A bind of a window that leaves a region.
fn bind_from(
    alloc: Global,
    w: &mut Window,
    former: &mut Region,
    region: &mut Region,
    op: SendOp,
    drawn: Option<u8>,
) -> Result<String, AllocError>
    requires { IsBind op }
{
    if former.bound() == 0 || region.bound() == u32::MAX {
        return format!(in alloc; "not counted");
    }
    let mut q = WindowCount { count: 0 };
    text(
        alloc,
        bind(
            alloc,
            w,
            Some(former),
            Some(region),
            &mut q,
            &op,
            drawn,
            QUEUE,
        ),
    )
}

// The end of a window's key, with its region.
fn end_in(
    alloc: Global,
    w: &mut Window,
    region: &mut Region,
    q: &mut WindowCount,
    key: Key,
    queue: QueueId,
) -> Result<String, AllocError> {
    if region.bound() == 0 || q.count == 0 {
        return format!(in alloc; "not counted");
    }
    refusal_text(alloc, invalidate(Some(w), Some(region), q, key, queue))
}

/// The rights of the region, the window's type, the byte that a Bind1 drew, what the bind asks for, and what comes of a
/// bind of type 1 and of type 2.
const BINDS: [(Rights, u8, Option<u8>, Asked, &'static str, &'static str); 10] = [
    (
        ALL,
        0,
        Some(1),
        Asked(KEY, FIRST, 64, READ),
        "window:no-window",
        "window:no-window",
    ),
    (
        ALL,
        1,
        None,
        Asked(KEY, FIRST, 64, READ),
        "window:wrong-type",
        "window:wrong-type",
    ),
    (
        ALL,
        2,
        Some(1),
        Asked(KEY, FIRST, 0, READ),
        "window:wrong-type",
        "window:empty",
    ),
    (
        ALL,
        1,
        Some(1),
        Asked(Key(2), FIRST, 64, READ),
        "window:region-not-valid",
        "window:wrong-type",
    ),
    (
        ALL,
        2,
        Some(1),
        Asked(Key(2), FIRST, 64, READ),
        "window:wrong-type",
        "window:region-not-valid",
    ),
    (
        READ,
        1,
        Some(1),
        Asked(KEY, 0, 64, WRITE),
        "window:no-bind-right",
        "window:wrong-type",
    ),
    (
        READ_AND_BIND,
        2,
        Some(1),
        Asked(KEY, 0, 64, WRITE),
        "window:wrong-type",
        "window:rights-need-local-write",
    ),
    (
        ALL,
        1,
        Some(1),
        Asked(KEY, FIRST + 4033, 64, WRITE),
        "window:outside-region",
        "window:wrong-type",
    ),
    (
        ALL,
        1,
        Some(1),
        Asked(KEY, FIRST + 4032, 64, WRITE),
        "revoked 0x00000000 granted 0x00800001",
        "window:wrong-type",
    ),
    (
        ALL,
        2,
        None,
        Asked(KEY, FIRST + 4032, 64, WRITE),
        "window:wrong-type",
        "revoked 0x00000000 granted 0x00800009",
    ),
];

type BindRow = (Rights, u8, Option<u8>, Asked, &'static str, &'static str);

// The bind of a new window of this type over a region.
fn bind_of(
    alloc: Global,
    kind: u8,
    region: &mut Region,
    q: &mut WindowCount,
    op: SendOp,
    drawn: Option<u8>,
) -> Result<String, AllocError>
    requires { IsBind op }
{
    let mut window = window(kind);
    bind_in(alloc, &mut window, region, q, op, drawn)
}

// Both binds of a row, over its region.
fn both_are(
    rt: &impl Abort,
    alloc: Global,
    region: &mut Region,
    row: &BindRow,
) -> Result<(), AllocError> {
    let (_, kind, drawn, asked, first, second) = *row;
    let mut q = WindowCount { count: 0 };
    let given = bind_of(alloc, kind, region, &mut q, bind1(asked), drawn);
    text_is(rt, given, first)?;
    let given = bind_of(alloc, kind, region, &mut q, bind2(asked, 9), None);
    text_is(rt, given, second)
}

#[test]
fn binds_are_refused_for_the_first_reason(rt: HostRuntime) -> Result<(), Fail> {
    let alloc = rt.alloc();
    for row in BINDS.as_slice() {
        let mut region = region(alloc, 0, row.0);
        both_are(&rt, alloc, &mut region, row)?;
    }
    Ok(())
}

fn moves(
    rt: &impl Abort,
    alloc: Global,
    window: &mut Window,
    here: &mut Region,
    there: &mut Region,
) -> Result<(), Fail> {
    let mut q = WindowCount { count: 0 };
    let asked = Asked(KEY, FIRST, 64, READ);
    let next = Asked(NEXT_KEY, FIRST, 64, READ);
    let none = Asked(NEXT_KEY, FIRST, 0, READ);
    let given = bind_in(alloc, window, here, &mut q, bind1(asked), Some(1));
    text_is(rt, given, "revoked 0x00000000 granted 0x00800001")?;
    counts_are(rt, (here.bound(), there.bound(), q.count), (1, 0, 0));
    let given = bind_in(alloc, window, here, &mut q, bind1(asked), Some(2));
    text_is(rt, given, "revoked 0x00800001 granted 0x00800002")?;
    counts_are(rt, (here.bound(), there.bound(), q.count), (1, 0, 0));
    let given = bind_from(alloc, window, here, there, bind1(next), Some(3));
    text_is(rt, given, "revoked 0x00800002 granted 0x00800003")?;
    counts_are(rt, (here.bound(), there.bound(), q.count), (0, 1, 0));
    let given = bind_in(alloc, window, there, &mut q, bind1(none), Some(4));
    text_is(rt, given, "revoked 0x00800003 granted 0x00000000")?;
    counts_are(rt, (here.bound(), there.bound(), q.count), (0, 0, 0));
    Ok(())
}

#[test]
fn a_type_1_window_moves_from_region_to_region(rt: HostRuntime) -> Result<(), Fail> {
    let alloc = rt.alloc();
    let mut here = region(alloc, 0, ALL);
    let mut there = region(alloc, 1, ALL);
    let mut window = window(1);
    moves(&rt, alloc, &mut window, &mut here, &mut there)
}

// Whether a region can be deregistered is as told.
fn deregisters(rt: &impl Abort, region: &mut Region, want: &str) {
    let outcome = if region.deregister().is_ok() {
        "ok"
    } else {
        "refused"
    };
    texts_are(rt, outcome, want);
}

fn stays_bound(
    rt: &impl Abort,
    alloc: Global,
    window: &mut Window,
    region: &mut Region,
) -> Result<(), Fail> {
    let mut q = WindowCount { count: 0 };
    let asked = Asked(KEY, FIRST, 64, WRITE);
    let key = Key(0x0080_0009);
    let given = bind_in(alloc, window, region, &mut q, bind2(asked, 9), None);
    text_is(rt, given, "revoked 0x00000000 granted 0x00800009")?;
    counts_are(rt, (region.bound(), q.count, 0), (1, 1, 0));
    let given = bind_in(alloc, window, region, &mut q, bind2(asked, 10), None);
    text_is(rt, given, "window:still-bound")?;
    let given = end_in(alloc, window, region, &mut q, Key(0x0080_000a), QUEUE);
    text_is(rt, given, "window:key-differs")?;
    let given = end_in(alloc, window, region, &mut q, key, OTHER_QUEUE);
    text_is(rt, given, "window:wrong-queue")?;
    counts_are(rt, (region.bound(), q.count, 0), (1, 1, 0));
    deregisters(rt, region, "refused");
    let given = end_in(alloc, window, region, &mut q, key, QUEUE);
    text_is(rt, given, "revoked 0x00800009 granted 0x00000000")?;
    counts_are(rt, (region.bound(), q.count, 0), (0, 0, 0));
    deregisters(rt, region, "ok");
    Ok(())
}

#[test]
fn a_type_2_window_is_bound_until_its_key_ends(rt: HostRuntime) -> Result<(), Fail> {
    let alloc = rt.alloc();
    let mut region = region(alloc, 0, ALL);
    let mut window = window(2);
    stays_bound(&rt, alloc, &mut window, &mut region)
}

/// The pages, the address, the length, the rights, the bytes of the buffer, and what comes of the fast registration.
const PAGES_OF: [(&'static [u16], u64, u32, Rights, u32, &'static str); 5] = [
    (
        &[3, 1],
        0xffa,
        12,
        WRITE,
        16384,
        "region:rights-need-local-write",
    ),
    (&[3, 1, 2], 0xffa, 12, ALL, 16384, "region:bad-pages"),
    (&[3, 1], 0xffa, 12, ALL, 16383, "region:outside-buffer"),
    (&[3, 1], 0xffa, 12, ALL, 0, "region:outside-buffer"),
    (
        &[3, 1],
        0xffa,
        12,
        ALL,
        16384,
        "revoked 0x00000000 granted 0x00000107",
    ),
];

fn fast_registration(
    alloc: Global,
    region: &mut Region,
    row: (&'static [u16], u64, u32, Rights, u32, &'static str),
) -> Result<String, Fail> {
    let (pages, address, length, rights, bytes, _) = row;
    let op = SendOp::FastReg {
        region: 1,
        low: 7,
        buffer: 0,
        address,
        length,
        rights,
        pages: Pages::copy_of(alloc, pages).ok().ok_or("memory")?,
    };
    Ok(text(alloc, fast(alloc, region, &op, slot(1), bytes))?)
}

// The same of a region that is let go then.
fn fast_registration_of(
    alloc: Global,
    mut region: Region,
    row: (&'static [u16], u64, u32, Rights, u32, &'static str),
) -> Result<String, Fail> {
    fast_registration(alloc, &mut region, row)
}

// A region that is free, for four pages.
fn free() -> Region {
    let mut free = Region::vacant();
    free.allocate(4);
    free
}

#[test]
fn fast_registrations_are_refused_for_the_first_reason(rt: HostRuntime) -> Result<(), Fail> {
    let alloc = rt.alloc();
    for row in PAGES_OF.as_slice() {
        let given = fast_registration_of(alloc, free(), *row)?;
        texts_are(&rt, given.as_str(), row.5);
        let given = fast_registration_of(alloc, Region::vacant(), *row)?;
        texts_are(&rt, given.as_str(), "region:not-free");
    }
    Ok(())
}

// The end of a region's key.
fn end_key(alloc: Global, region: Option<&mut Region>, key: Key) -> Result<String, AllocError>
    requires { is_window_key key ≡ false }
{
    let mut q = WindowCount { count: 0 };
    refusal_text(alloc, invalidate(None, region, &mut q, key, QUEUE))
}

fn key_of_a_registration(
    rt: &impl Abort,
    alloc: Global,
    registered: &mut Region,
) -> Result<(), Fail> {
    let given = end_key(alloc, Some(registered), KEY);
    text_is(rt, given, "region:not-fast-registered")?;
    let given = end_key(alloc, Some(registered), Key(2));
    text_is(rt, given, "region:key-differs")?;
    let given = end_key(alloc, None, Key(0x0500_0001));
    text_is(rt, given, "region:not-valid")?;
    Ok(())
}

fn key_of_a_fast_registration(
    rt: &impl Abort,
    alloc: Global,
    free: &mut Region,
) -> Result<(), Fail> {
    let given = fast_registration(alloc, free, (&[3, 1], 0xffa, 12, ALL, 16384, ""))?;
    texts_are(rt, given.as_str(), "revoked 0x00000000 granted 0x00000107");
    let given = end_key(alloc, Some(free), Key(0x107));
    text_is(rt, given, "revoked 0x00000107 granted 0x00000000")?;
    let given = end_key(alloc, Some(free), Key(0x107));
    text_is(rt, given, "region:not-valid")?;
    Ok(())
}

#[test]
fn a_regions_key_ends_once(rt: HostRuntime) -> Result<(), Fail> {
    let alloc = rt.alloc();
    let mut registered = region(alloc, 0, ALL);
    key_of_a_registration(&rt, alloc, &mut registered)?;
    let mut free = free();
    key_of_a_fast_registration(&rt, alloc, &mut free)
}

/// The key of a window in slot 0, under the byte 9.
const WINDOW_KEY: Key = Key(0x0080_0009);

// The end of the key of a window that is not bound.
fn end_unbound(alloc: Global, mut window: Window, q: &mut WindowCount) -> Result<String, AllocError>
    requires { window.binding ≡ None }
{
    let given = invalidate(Some(&mut window), None, q, WINDOW_KEY, QUEUE);
    refusal_text(alloc, given)
}

#[test]
fn a_window_key_without_its_window_names_nothing(rt: HostRuntime) -> Result<(), Fail> {
    let alloc = rt.alloc();
    let mut q = WindowCount { count: 0 };
    let given = invalidate(None, None, &mut q, WINDOW_KEY, QUEUE);
    text_is(&rt, refusal_text(alloc, given), "window:no-window")?;
    let given = end_unbound(alloc, window(1), &mut q);
    text_is(&rt, given, "window:type1")?;
    let given = end_unbound(alloc, window(2), &mut q);
    text_is(&rt, given, "window:not-bound")?;
    Ok(())
}
