ghost use Rattle.std.specs.Prelude.{◌≤◌};

use super::{ATOMIC_ALONE, KEY, SLOT, WRITE, WRITE_ALONE, holds, key_of, reason_of, run};
use ca_base::{DomainId, Grant, Key, Pages, RegionError, RegistrationError, Rights, Run, Slot};
use ca_region::Region;
use std::alloc::Global;

fn free(pages: u16) -> Region
    requires some { 1 ≤ pages }
    requires few { pages ≤ 256 }
{
    let mut region = Region::vacant();
    region.allocate(pages);
    region
}

/// Registers pages of a buffer of 14,000 bytes: three whole pages, and 1,712 bytes of the fourth.
fn register(
    alloc: Global,
    region: &mut Region,
    address: u64,
    length: u32,
    rights: Rights,
    pages: &[u16],
) -> Result<Grant, RegistrationError> {
    let pages = Pages::copy_of(alloc, pages)?;
    region.fast_register(alloc, SLOT, 7, 3, 14_000, address, length, rights, &pages)
}

/// The address, the length, the rights and the pages that are asked for of a region with four pages, and why they are
/// refused.
const ASKED: [((u64, u32), Rights, &[u16], Option<RegionError>); 23] = [
    (
        (0, 0),
        WRITE_ALONE,
        &[],
        Some(RegionError::RightsNeedLocalWrite),
    ),
    (
        (0, 4096),
        ATOMIC_ALONE,
        &[0],
        Some(RegionError::RightsNeedLocalWrite),
    ),
    ((0, 0), WRITE, &[], Some(RegionError::BadPages)),
    ((8192, 0), WRITE, &[0], Some(RegionError::BadPages)),
    ((u64::MAX, 2), WRITE, &[0, 1], Some(RegionError::BadPages)),
    (
        (u64::MAX - 4095, 4097),
        WRITE,
        &[0, 1],
        Some(RegionError::BadPages),
    ),
    ((u64::MAX, 1), WRITE, &[0], None),
    ((u64::MAX - 4095, 4096), WRITE, &[0], None),
    (
        (0, 16_385),
        WRITE,
        &[0, 1, 2, 3, 4],
        Some(RegionError::BadPages),
    ),
    ((0, 8193), WRITE, &[1, 2, 1], Some(RegionError::BadPages)),
    ((0, 8192), WRITE, &[9, 9], Some(RegionError::BadPages)),
    ((0, 8192), WRITE, &[300, 300], Some(RegionError::BadPages)),
    (
        (0, 8192),
        WRITE,
        &[300, 301],
        Some(RegionError::OutsideBuffer),
    ),
    ((0, 4096), WRITE, &[0, 1], Some(RegionError::BadPages)),
    ((0, 4097), WRITE, &[0], Some(RegionError::BadPages)),
    ((4095, 2), WRITE, &[0], Some(RegionError::BadPages)),
    ((4095, 1), WRITE, &[0, 1], Some(RegionError::BadPages)),
    ((0, 1712), WRITE, &[3], None),
    ((0, 1713), WRITE, &[3], Some(RegionError::OutsideBuffer)),
    ((4096 + 1711, 1), WRITE, &[3], None),
    (
        (4096 + 1712, 1),
        WRITE,
        &[3],
        Some(RegionError::OutsideBuffer),
    ),
    ((0, 4097), WRITE, &[3, 0], Some(RegionError::OutsideBuffer)),
    ((0, 4096 + 1712), WRITE, &[0, 3], None),
];

#[test]
fn refuses_for_the_first_reason(rt: HostRuntime) {
    for row in ASKED.as_slice() {
        let ((address, length), rights, pages, want) = *row;
        let mut region = free(4);
        let given = register(rt.alloc(), &mut region, address, length, rights, pages);
        holds(&rt, reason_of(&given) == want, "the reason");
        let key = if want.is_none() { Some(KEY) } else { None };
        holds(&rt, key_of(&region) == key, "the valid key");
    }
}

#[test]
fn refuses_a_region_that_is_not_free(rt: HostRuntime) {
    let mut region = Region::vacant();
    let given = register(rt.alloc(), &mut region, 0, 0, WRITE_ALONE, &[]);
    holds(
        &rt,
        reason_of(&given) == Some(RegionError::NotFree),
        "vacant",
    );
    let mut region = Region::vacant();
    let _ = region.register(rt.alloc(), SLOT, run(0, 1), 1, WRITE);
    let given = register(rt.alloc(), &mut region, 0, 4096, WRITE, &[0]);
    holds(
        &rt,
        reason_of(&given) == Some(RegionError::NotFree),
        "registered",
    );
    let mut region = free(1);
    let _ = register(rt.alloc(), &mut region, 0, 4096, WRITE, &[0]);
    let given = register(rt.alloc(), &mut region, 0, 4096, WRITE, &[0]);
    holds(
        &rt,
        reason_of(&given) == Some(RegionError::NotFree),
        "in use",
    );
}

/// The first byte is the 4,091st of page 2, the last the third of page 0.
fn is_of_three_pages(grant: &Grant) -> bool {
    grant.key == KEY
        && grant.domain == SLOT.domain
        && grant.queue.is_none()
        && grant.local
        && grant.address == 0x1234_5ffa
        && grant.length == 4105
        && grant.rights == WRITE
        && grant.runs.as_slice() == [run(12_282, 6), run(4096, 4096), run(0, 3)].as_slice()
}

#[test]
fn grants_the_pages_in_their_order(rt: HostRuntime) {
    let mut region = free(3);
    let given = register(
        rt.alloc(),
        &mut region,
        0x1234_5ffa,
        4105,
        WRITE,
        &[2, 1, 0],
    );
    holds(
        &rt,
        matches!(&given, Ok(grant) if is_of_three_pages(grant)),
        "the grant of three pages",
    );
}

/// A fast registration: adapter, domain, slot and low byte, the buffer, the address and the length, and the pages. Then
/// the key, and the offsets and lengths of the runs, that a program which was written apart from this one grants.
type Vector = (
    (u8, u8, u16, u8),
    u16,
    (u64, u32),
    &'static [u16],
    u32,
    &'static [(u32, u32)],
);

const VECTORS: [Vector; 8] = [
    (
        (0, 0, 4, 7),
        0,
        (0x100_0000_0000, 8191),
        &[7, 3],
        0x0000_0407,
        &[(28_672, 4096), (12_288, 4095)],
    ),
    (
        (0, 0, 3, 7),
        0,
        (0, 16_384),
        &[2, 6, 5, 1],
        0x0000_0307,
        &[(8192, 4096), (24_576, 4096), (20_480, 4096), (4096, 4096)],
    ),
    ((0, 2, 7, 3), 0, (0, 64), &[0], 0x0200_0703, &[(0, 64)]),
    (
        (2, 0, 3, 255),
        1,
        (0xffff_ffff_ffff_e000, 8192),
        &[7, 5],
        0x0000_03ff,
        &[(28_672, 4096), (20_480, 4096)],
    ),
    (
        (0, 0, 4, 0),
        0,
        (0x100_0000_0000, 8187),
        &[2, 1],
        0x0000_0400,
        &[(8192, 4096), (4096, 4091)],
    ),
    (
        (0, 0, 3, 0),
        1,
        (0xffff_ffff_ffff_f000, 256),
        &[0],
        0x0000_0300,
        &[(0, 256)],
    ),
    ((1, 0, 1, 7), 0, (0, 4096), &[0], 0x0000_0107, &[(0, 4096)]),
    (
        (0, 0, 1, 7),
        0,
        (0xffa, 12),
        &[3, 1],
        0x0000_0107,
        &[(16_378, 6), (4096, 6)],
    ),
];

fn are_runs(runs: &[Run], adapter: u8, buffer: u16, want: &[(u32, u32)]) -> bool {
    for (run, (offset, length)) in runs.iter().zip(want) {
        let same = run.adapter == adapter && run.buffer == buffer;
        if !same || run.offset != *offset || run.length != *length {
            return false;
        }
    }
    runs.len() == want.len()
}

fn agrees(alloc: Global, vector: &Vector) -> Result<bool, RegistrationError> {
    let ((adapter, domain, slot, low), buffer, (address, length), pages, key, runs) = *vector;
    let domain = DomainId { adapter, domain };
    let slot = Slot { domain, slot };
    let pages = Pages::copy_of(alloc, pages)?;
    let mut region = free(256);
    let grant = region.fast_register(
        alloc, slot, low, buffer, 1_048_576, address, length, WRITE, &pages,
    )?;
    let names = grant.key == Key(key) && grant.domain == domain;
    let range = grant.address == address && grant.length == length;
    Ok(names && range && are_runs(grant.runs.as_slice(), adapter, buffer, runs))
}

#[test]
fn grants_what_another_program_grants(rt: HostRuntime) {
    for vector in VECTORS.as_slice() {
        holds(
            &rt,
            matches!(agrees(rt.alloc(), vector), Ok(true)),
            "the grant",
        );
    }
}
