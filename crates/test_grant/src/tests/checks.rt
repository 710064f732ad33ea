ghost use Rattle.std.specs.Prelude.{◌≡◌, None, Some, IfSome, IsTrue};
ghost use Rattle.ca_base.specs.objects.Region.{grant_of_region};
ghost use Rattle.ca_grant.specs.Parts.{LiesWithin};
ghost use Rattle.ca_grant.specs.Reaching.{IsPacketAsk};

use super::text_is;
use ca_base::limits::MAX_PAYLOAD_BYTES;
use ca_base::{
    Ask, Denial, DomainId, Key, Kind, Pages, QueueId, RegionView, Rights, Run, Slot, Span,
};
use ca_grant::judge;
use ca_region::Region;
use ca_window::Window;
use std::alloc::{AllocError, Global};
use std::process::Abort;
use std::test::Fail;

const SLOT: Slot = Slot {
    domain: DomainId {
        adapter: 0,
        domain: 0,
    },
    slot: 0,
};

const QUEUE: QueueId = QueueId {
    adapter: 0,
    number: 256,
};

const OTHER_QUEUE: QueueId = QueueId {
    adapter: 0,
    number: 257,
};

const NONE: Rights = Rights {
    local_write: false,
    remote_read: false,
    remote_write: false,
    remote_atomic: false,
    window_bind: false,
};

const LOCAL_AND_WRITE: Rights = Rights {
    local_write: true,
    remote_read: false,
    remote_write: true,
    remote_atomic: false,
    window_bind: false,
};

const ALL: Rights = Rights {
    local_write: true,
    remote_read: true,
    remote_write: true,
    remote_atomic: true,
    window_bind: true,
};

const FIRST: u64 = 0x1_0000_0000;

/// The key of a region's first registration in slot 0, and that of a window in slot 0 that is bound under the byte 9.
const KEY: Key = Key(0x1);

const WINDOW_KEY: Key = Key(0x0080_0009);

fn no_region() -> Region
    ensures { grant_of_region result ≡ None }
{
    Region::vacant()
}

// A region over 64 bytes of buffer 0.
fn registered(alloc: Global, rights: Rights) -> Region
    ensures { IfSome (grant_of_region result) (λ g. g.domain.adapter ≡ 0) }
{
    let at = Run {
        adapter: 0,
        buffer: 0,
        offset: 0,
        length: 64,
    };
    let mut region = Region::vacant();
    match region.register(alloc, SLOT, at, 64, rights) {
        Ok(_) => region,
        Err(_) => no_region(),
    }
}

// A region over 12 bytes of two pages of buffer 0, in an order that is not theirs.
fn fast_registered(alloc: Global) -> Region
    ensures { IfSome (grant_of_region result) (λ g. g.domain.adapter ≡ 0) }
{
    let Ok(pages) = Pages::copy_of(alloc, &[3, 1]) else {
        return no_region();
    };
    let mut region = Region::vacant();
    region.allocate(4);
    match region.fast_register(alloc, SLOT, 1, 0, 16384, 0xffa, 12, ALL, &pages) {
        Ok(_) => region,
        Err(_) => no_region(),
    }
}

// A window in slot 0 of domain 0, bound under the byte 9.
fn bound(kind: u8, view: &RegionView, address: u64, length: u32) -> Window
    ensures { result.slot.domain.adapter ≡ 0 }
{
    let mut window = Window::vacant(SLOT);
    if kind == 1 {
        window.allocate(1);
        let _ = window.bind1(9, Some(view), address, length, ALL);
    } else {
        window.allocate(2);
        let _ = window.bind2(9, QUEUE, Some(view), address, length, ALL);
    }
    window
}

// Whether the window lies in the region, where it is bound.
fn lies_within(window: &Window, region: &Region) -> bool
    ensures { IsTrue result → LiesWithin window.now.binding (grant_of_region region.now) }
{
    let Some(part) = window.view() else {
        return true;
    };
    let whole = region.view();
    if part.address < whole.address {
        return !whole.valid;
    }
    let before = part.address - whole.address;
    !whole.valid
        || (before <= u64::from(whole.length)
            && u64::from(part.length) <= u64::from(whole.length) - before)
}

/// What an ask is for: the key, whether it is used as an L_Key, the domain, the queue pair, the kind, and the address, the
/// bytes that are judged and those that are touched.
#[derive(Clone, Copy)]
struct Asked(Key, bool, u8, QueueId, Kind, (u64, u32, u32));

fn ask_for(asked: Asked) -> Ask
    ensures { result.domain.adapter ≡ 0 }
{
    let (address, length, touch) = asked.5;
    Ask {
        queue: asked.3,
        domain: DomainId {
            adapter: 0,
            domain: asked.2,
        },
        key: asked.0,
        local: asked.1,
        kind: asked.4,
        address,
        length,
        touch,
    }
}

fn is_packet(ask: &Ask) -> bool
    ensures { IsTrue result → IsPacketAsk ask.now }
{
    0 < ask.touch && ask.touch <= ask.length && ask.touch as usize <= MAX_PAYLOAD_BYTES
}

fn text(alloc: Global, given: Result<Span, Denial>) -> Result<String, AllocError> {
    match given {
        Ok(
            Span {
                first,
                second: Some(second),
            },
        ) => format!(in alloc; "{first},{second}"),
        Ok(
            Span {
                first,
                second: None,
            },
        ) => format!(in alloc; "{first}"),
        Err(denial) => format!(in alloc; "{denial}"),
    }
}

fn judged(alloc: Global, region: &Region, asked: Asked) -> Result<String, AllocError>
    requires { IfSome (grant_of_region region.now) (λ g. g.domain.adapter ≡ 0) }
{
    let ask = ask_for(asked);
    if !is_packet(&ask) {
        return format!(in alloc; "no packet");
    }
    text(alloc, judge(None, Some(region), &ask))
}

fn judged_over(
    alloc: Global,
    window: &Window,
    region: &Region,
    asked: Asked,
) -> Result<String, AllocError>
    requires { window.now.slot.domain.adapter ≡ 0 }
{
    let ask = ask_for(asked);
    if !is_packet(&ask) || !lies_within(window, region) {
        return format!(in alloc; "no packet");
    }
    text(alloc, judge(Some(window), Some(region), &ask))
}

/// The rights of a region of 64 bytes, an ask, and what it is judged to be.
const ASKS: [(Rights, Asked, &'static str); 15] = [
    (
        LOCAL_AND_WRITE,
        Asked(KEY, false, 0, QUEUE, Kind::Write, (FIRST + 63, 1, 1)),
        "0/0:63+1",
    ),
    (
        LOCAL_AND_WRITE,
        Asked(KEY, false, 0, QUEUE, Kind::Write, (FIRST + 64, 1, 1)),
        "out-of-range",
    ),
    (
        LOCAL_AND_WRITE,
        Asked(KEY, false, 0, QUEUE, Kind::Write, (FIRST + 63, 2, 1)),
        "out-of-range",
    ),
    (
        LOCAL_AND_WRITE,
        Asked(KEY, false, 0, QUEUE, Kind::Write, (FIRST - 1, 1, 1)),
        "out-of-range",
    ),
    (
        LOCAL_AND_WRITE,
        Asked(KEY, false, 0, QUEUE, Kind::Write, (u64::MAX, u32::MAX, 1)),
        "out-of-range",
    ),
    (
        LOCAL_AND_WRITE,
        Asked(KEY, false, 0, QUEUE, Kind::Read, (FIRST, 1, 1)),
        "no-right",
    ),
    (
        LOCAL_AND_WRITE,
        Asked(Key(0x101), false, 0, QUEUE, Kind::Write, (FIRST, 1, 1)),
        "no-grant",
    ),
    (
        LOCAL_AND_WRITE,
        Asked(KEY, false, 1, QUEUE, Kind::Write, (FIRST, 1, 1)),
        "no-grant",
    ),
    (
        LOCAL_AND_WRITE,
        Asked(
            Key(0x0500_0001),
            false,
            0,
            QUEUE,
            Kind::Write,
            (FIRST, 1, 1),
        ),
        "no-grant",
    ),
    (
        LOCAL_AND_WRITE,
        Asked(KEY, false, 0, QUEUE, Kind::FetchAdd, (FIRST + 64, 8, 8)),
        "no-right",
    ),
    (
        ALL,
        Asked(KEY, false, 0, QUEUE, Kind::CmpSwap, (FIRST + 56, 8, 8)),
        "0/0:56+8",
    ),
    (
        ALL,
        Asked(KEY, true, 0, QUEUE, Kind::FetchAdd, (FIRST, 8, 8)),
        "no-right",
    ),
    (
        NONE,
        Asked(KEY, true, 0, OTHER_QUEUE, Kind::Read, (FIRST, 64, 10)),
        "0/0:0+10",
    ),
    (
        NONE,
        Asked(KEY, true, 0, QUEUE, Kind::Write, (FIRST, 1, 1)),
        "no-right",
    ),
    (
        LOCAL_AND_WRITE,
        Asked(KEY, true, 0, QUEUE, Kind::Write, (FIRST + 1, 63, 63)),
        "0/0:1+63",
    ),
];

// An ask of a region that is let go then.
fn is_judged(
    rt: &impl Abort,
    alloc: Global,
    region: Region,
    asked: Asked,
    want: &str,
) -> Result<(), AllocError>
    requires { IfSome (grant_of_region region) (λ g. g.domain.adapter ≡ 0) }
{
    text_is(rt, judged(alloc, &region, asked), want)
}

#[test]
fn asks_are_judged_by_a_region(rt: HostRuntime) -> Result<(), Fail> {
    let alloc = rt.alloc();
    for row in ASKS.as_slice() {
        let (rights, asked, want) = *row;
        is_judged(&rt, alloc, registered(alloc, rights), asked, want)?;
        is_judged(&rt, alloc, no_region(), asked, "no-grant")?;
    }
    Ok(())
}

/// Address, bytes that are judged and bytes that are touched of a fast-registered region of 12 bytes from 0xffa on.
const PAGES_TOUCHED: [((u64, u32, u32), &'static str); 6] = [
    ((0xffa, 12, 12), "0/0:16378+6,0/0:4096+6"),
    ((0xffa, 12, 6), "0/0:16378+6"),
    ((0xfff, 2, 2), "0/0:16383+1,0/0:4096+1"),
    ((0x1000, 6, 6), "0/0:4096+6"),
    ((0x1005, 1, 1), "0/0:4101+1"),
    ((0x1005, 2, 1), "out-of-range"),
];

fn pages_are_touched(rt: &impl Abort, alloc: Global, region: &Region) -> Result<(), Fail>
    requires { IfSome (grant_of_region region.now) (λ g. g.domain.adapter ≡ 0) }
{
    for row in PAGES_TOUCHED.as_slice() {
        let asked = Asked(KEY, false, 0, QUEUE, Kind::Read, row.0);
        text_is(rt, judged(alloc, region, asked), row.1)?;
    }
    Ok(())
}

#[test]
fn touched_bytes_lie_in_two_pages_at_most(rt: HostRuntime) -> Result<(), Fail> {
    let region = fast_registered(rt.alloc());
    pages_are_touched(&rt, rt.alloc(), &region)
}

/// The type of a window over the last 16 bytes of a region, an ask, and what it is judged to be.
const WINDOW_ASKS: [(u8, Asked, &'static str); 8] = [
    (
        2,
        Asked(WINDOW_KEY, false, 0, QUEUE, Kind::Write, (FIRST + 63, 1, 1)),
        "0/0:63+1",
    ),
    (
        2,
        Asked(
            WINDOW_KEY,
            false,
            0,
            QUEUE,
            Kind::FetchAdd,
            (FIRST + 56, 8, 8),
        ),
        "0/0:56+8",
    ),
    (
        2,
        Asked(
            WINDOW_KEY,
            false,
            0,
            OTHER_QUEUE,
            Kind::Write,
            (FIRST + 64, 1, 1),
        ),
        "wrong-queue",
    ),
    (
        1,
        Asked(
            WINDOW_KEY,
            false,
            0,
            OTHER_QUEUE,
            Kind::Write,
            (FIRST + 48, 16, 16),
        ),
        "0/0:48+16",
    ),
    (
        1,
        Asked(WINDOW_KEY, false, 0, QUEUE, Kind::Write, (FIRST + 47, 1, 1)),
        "out-of-range",
    ),
    (
        2,
        Asked(WINDOW_KEY, true, 0, QUEUE, Kind::Read, (FIRST + 48, 1, 1)),
        "no-grant",
    ),
    (
        2,
        Asked(WINDOW_KEY, false, 1, QUEUE, Kind::Read, (FIRST + 48, 1, 1)),
        "no-grant",
    ),
    (
        2,
        Asked(
            Key(0x0080_000a),
            false,
            0,
            QUEUE,
            Kind::Read,
            (FIRST + 48, 1, 1),
        ),
        "no-grant",
    ),
];

// An ask of a window in its region, and in a region that is vacant.
fn is_judged_over(
    rt: &impl Abort,
    alloc: Global,
    window: &Window,
    region: &Region,
    vacant: &Region,
    row: &(u8, Asked, &'static str),
) -> Result<(), AllocError>
    requires { window.now.slot.domain.adapter ≡ 0 }
{
    text_is(rt, judged_over(alloc, window, region, row.1), row.2)?;
    text_is(rt, judged_over(alloc, window, vacant, row.1), "no-grant")
}

fn windows_are_judged(
    rt: &impl Abort,
    alloc: Global,
    region: &Region,
    vacant: &Region,
) -> Result<(), Fail> {
    for row in WINDOW_ASKS.as_slice() {
        let window = bound(row.0, &region.view(), FIRST + 48, 16);
        is_judged_over(rt, alloc, &window, region, vacant, row)?;
    }
    Ok(())
}

#[test]
fn asks_are_judged_by_a_window_in_its_region(rt: HostRuntime) -> Result<(), Fail> {
    let region = registered(rt.alloc(), ALL);
    windows_are_judged(&rt, rt.alloc(), &region, &no_region())
}
