use super::{SLOT, WRITE, holds, run};
use ca_base::limits::PAGE_BYTES;
use ca_base::{Memory, Pages, Run, Runs, Span};
use ca_region::Region;
use std::alloc::Global;
use std::process::Abort;
use std::test::Fail;

/// Where the bytes lie, where the region has them: their number is behind the first byte, and how many they are.
fn span_of(region: &Region, behind: u32, touch: u32) -> Option<Span> {
    let view = region.view();
    if !view.valid || touch == 0 || touch > PAGE_BYTES {
        return None;
    }
    if behind > view.length || touch > view.length - behind {
        return None;
    }
    if view.address > u64::MAX - u64::from(behind) {
        return None;
    }
    Some(region.span(view.address + u64::from(behind), touch))
}

fn runs_of(alloc: Global, region: &Region, behind: u32, length: u32) -> Option<Runs> {
    let view = region.view();
    if !view.valid || length == 0 {
        return None;
    }
    if behind > view.length || length > view.length - behind {
        return None;
    }
    if view.address > u64::MAX - u64::from(behind) {
        return None;
    }
    region
        .runs(alloc, view.address + u64::from(behind), length)
        .ok()
}

/// The first byte behind that of the region, how many bytes, and the offset and the length of one or two runs.
type Place = ((u32, u32), (u32, u32), Option<(u32, u32)>);

fn span_is(rt: &impl Abort, region: &Region, place: &Place) {
    let ((behind, touch), (offset, length), second) = *place;
    let is = match span_of(region, behind, touch) {
        None => false,
        Some(span) => {
            span.first == run(offset, length)
                && span.second == second.map(|(offset, length)| run(offset, length))
        }
    };
    holds(rt, is, "the places");
}

fn runs_are(rt: &impl Abort, runs: Option<Runs>, want: &[Run]) {
    let is = match runs {
        None => false,
        Some(runs) => runs.as_slice() == want,
    };
    holds(rt, is, "the runs");
}

/// Of the run of 5,000 bytes from offset 100 on.
const OF_A_RUN: [Place; 4] = [
    ((0, 1), (100, 1), None),
    ((4999, 1), (5099, 1), None),
    ((904, 4096), (1004, 4096), None),
    ((3, 8), (103, 8), None),
];

#[test]
fn a_run_has_its_places_in_order(rt: HostRuntime) {
    let mut region = Region::vacant();
    let _ = region.register(rt.alloc(), SLOT, run(100, 5000), 5100, WRITE);
    for place in OF_A_RUN.as_slice() {
        span_is(&rt, &region, place);
    }
    runs_are(
        &rt,
        runs_of(rt.alloc(), &region, 0, 5000),
        &[run(100, 5000)],
    );
    runs_are(&rt, runs_of(rt.alloc(), &region, 4999, 1), &[run(5099, 1)]);
}

#[test]
fn the_last_byte_of_the_longest_buffer_has_its_place(rt: HostRuntime) {
    let mut region = Region::vacant();
    let _ = region.register(
        rt.alloc(),
        SLOT,
        run(4_294_967_290, 5),
        4_294_967_295,
        WRITE,
    );
    span_is(&rt, &region, &((4, 1), (4_294_967_294, 1), None));
}

/// 256 pages, the last first.
fn falling(alloc: Global) -> Result<Pages, Memory> {
    let mut pages = Pages::empty(alloc);
    for page in (0..256u16).rev() {
        pages.push(page)?;
    }
    Ok(pages)
}

fn fast_region(alloc: Global, address: u64, length: u32, pages: &Pages) -> Region {
    let mut region = Region::vacant();
    region.allocate(256);
    let _ = region.fast_register(alloc, SLOT, 7, 3, 1_048_576, address, length, WRITE, pages);
    region
}

/// Of 1,048,576 bytes in 256 pages, of which page 255 is the first and page 0 the last.
const OF_FALLING: [Place; 9] = [
    ((0, 1), (1_044_480, 1), None),
    ((0, 4096), (1_044_480, 4096), None),
    ((1, 4096), (1_044_481, 4095), Some((1_040_384, 1))),
    ((4090, 12), (1_048_570, 6), Some((1_040_384, 6))),
    ((4095, 1), (1_048_575, 1), None),
    ((4096, 8), (1_040_384, 8), None),
    ((1_044_479, 4096), (8191, 1), Some((0, 4095))),
    ((1_044_480, 4096), (0, 4096), None),
    ((1_048_575, 1), (4095, 1), None),
];

#[test]
fn falling_pages_have_their_places(rt: HostRuntime) -> Result<(), Fail> {
    let pages = falling(rt.alloc())?;
    let region = fast_region(rt.alloc(), 0x1_0000_0000_0000, 1_048_576, &pages);
    for place in OF_FALLING.as_slice() {
        span_is(&rt, &region, place);
    }
    runs_are(
        &rt,
        runs_of(rt.alloc(), &region, 4095, 8194),
        &[
            run(1_048_575, 1),
            run(1_040_384, 4096),
            run(1_036_288, 4096),
            run(1_032_192, 1),
        ],
    );
    runs_are(
        &rt,
        runs_of(rt.alloc(), &region, 1_048_575, 1),
        &[run(4095, 1)],
    );
    runs_are(
        &rt,
        runs_of(rt.alloc(), &region, 0, 4096),
        &[run(1_044_480, 4096)],
    );
    Ok(())
}

/// Of 4,105 bytes from the 4,091st of page 2 on, over page 1 to the third byte of page 0.
const OF_THREE_PAGES: [Place; 6] = [
    ((0, 6), (12_282, 6), None),
    ((0, 7), (12_282, 6), Some((4096, 1))),
    ((5, 2), (12_287, 1), Some((4096, 1))),
    ((6, 4096), (4096, 4096), None),
    ((4100, 5), (8190, 2), Some((0, 3))),
    ((4104, 1), (2, 1), None),
];

#[test]
fn an_address_within_a_page_moves_all_places(rt: HostRuntime) -> Result<(), Fail> {
    let pages = Pages::copy_of(rt.alloc(), &[2, 1, 0])?;
    let region = fast_region(rt.alloc(), 0x1234_5ffa, 4105, &pages);
    for place in OF_THREE_PAGES.as_slice() {
        span_is(&rt, &region, place);
    }
    runs_are(
        &rt,
        runs_of(rt.alloc(), &region, 5, 4100),
        &[run(12_287, 1), run(4096, 4096), run(0, 3)],
    );
    Ok(())
}

#[test]
fn a_region_tells_its_buffer(rt: HostRuntime) -> Result<(), Fail> {
    let mut region = Region::vacant();
    holds(&rt, region.buffer().is_none(), "no buffer of a vacant slot");
    let _ = region.register(rt.alloc(), SLOT, run(100, 5000), 5100, WRITE);
    holds(&rt, region.buffer() == Some((1, 3)), "the buffer of a run");
    let pages = falling(rt.alloc())?;
    let region = fast_region(rt.alloc(), 0, 1_048_576, &pages);
    holds(&rt, region.buffer() == Some((1, 3)), "the buffer of pages");
    Ok(())
}
