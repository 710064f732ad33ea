use super::{KEY, SLOT, WRITE, holds, key_of, run};
use ca_base::{Key, Pages, RegionError};
use ca_region::Region;
use std::alloc::Global;

/// The key of the slot with the low byte 1, which its first registration takes.
const FIRST_KEY: Key = Key(0x0200_0501);

#[derive(Clone, Copy)]
enum Stage {
    Vacant,
    Free,
    Registered,
    FastRegistered,
}

fn fast_register(alloc: Global, region: &mut Region, low: u8) -> bool {
    let Ok(pages) = Pages::copy_of(alloc, &[1]) else {
        return false;
    };
    region
        .fast_register(alloc, SLOT, low, 3, 8192, 0, 4096, WRITE, &pages)
        .is_ok()
}

fn bind(region: &mut Region) {
    if region.bound() < u32::MAX {
        region.note_bind();
    }
}

fn region_in(alloc: Global, stage: Stage, bound: bool) -> Region {
    let mut region = Region::vacant();
    match stage {
        Stage::Vacant => {}
        Stage::Free => region.allocate(1),
        Stage::Registered => {
            let _ = region.register(alloc, SLOT, run(0, 1), 1, WRITE);
        }
        Stage::FastRegistered => {
            region.allocate(1);
            fast_register(alloc, &mut region, 7);
        }
    }
    if bound {
        bind(&mut region);
    }
    region
}

/// What stands in the slot, the key by which it is invalidated, whether a window is bound, and why it is refused.
const INVALIDATIONS: [(Stage, Key, bool, Option<RegionError>); 9] = [
    (Stage::Vacant, KEY, false, Some(RegionError::NotValid)),
    (Stage::Free, KEY, false, Some(RegionError::NotValid)),
    (Stage::Free, KEY, true, Some(RegionError::NotValid)),
    (Stage::Registered, KEY, true, Some(RegionError::KeyDiffers)),
    (
        Stage::Registered,
        FIRST_KEY,
        true,
        Some(RegionError::NotFastRegistered),
    ),
    (
        Stage::Registered,
        FIRST_KEY,
        false,
        Some(RegionError::NotFastRegistered),
    ),
    (
        Stage::FastRegistered,
        FIRST_KEY,
        true,
        Some(RegionError::KeyDiffers),
    ),
    (
        Stage::FastRegistered,
        KEY,
        true,
        Some(RegionError::WindowsBound),
    ),
    (Stage::FastRegistered, KEY, false, None),
];

#[test]
fn invalidates_or_refuses_for_the_first_reason(rt: HostRuntime) {
    for row in INVALIDATIONS.as_slice() {
        let (stage, key, bound, want) = *row;
        let mut region = region_in(rt.alloc(), stage, bound);
        let before = key_of(&region);
        let given = region.invalidate(key);
        holds(&rt, given.err() == want, "the reason");
        let after = if want.is_none() { None } else { before };
        holds(&rt, key_of(&region) == after, "the valid key");
    }
}

#[test]
fn is_free_again_after_an_invalidation(rt: HostRuntime) {
    let mut region = region_in(rt.alloc(), Stage::FastRegistered, false);
    holds(&rt, region.invalidate(KEY).is_ok(), "it is invalidated");
    holds(&rt, !region.is_vacant(), "it is not vacant");
    holds(
        &rt,
        fast_register(rt.alloc(), &mut region, 9),
        "it is registered once more",
    );
    holds(
        &rt,
        key_of(&region) == Some(Key(0x0200_0509)),
        "the key of the latest",
    );
    holds(
        &rt,
        region.invalidate(KEY).err() == Some(RegionError::KeyDiffers),
        "the former key is gone",
    );
}

/// What stands in the slot, whether a window is bound, why a deregistration is refused, and the key that it gives.
const DEREGISTRATIONS: [(Stage, bool, Option<RegionError>, Option<Key>); 8] = [
    (Stage::Vacant, false, Some(RegionError::Vacant), None),
    (Stage::Vacant, true, Some(RegionError::Vacant), None),
    (Stage::Free, true, Some(RegionError::WindowsBound), None),
    (
        Stage::Registered,
        true,
        Some(RegionError::WindowsBound),
        None,
    ),
    (
        Stage::FastRegistered,
        true,
        Some(RegionError::WindowsBound),
        None,
    ),
    (Stage::Free, false, None, None),
    (Stage::Registered, false, None, Some(FIRST_KEY)),
    (Stage::FastRegistered, false, None, Some(KEY)),
];

#[test]
fn deregisters_or_refuses_for_the_first_reason(rt: HostRuntime) {
    for row in DEREGISTRATIONS.as_slice() {
        let (stage, bound, want, key) = *row;
        let mut region = region_in(rt.alloc(), stage, bound);
        let before = region.is_vacant();
        let given = region.deregister();
        holds(&rt, given.err() == want, "the reason");
        holds(&rt, given.ok().is_none_or(|k| k == key), "the key");
        holds(
            &rt,
            region.is_vacant() == (before || want.is_none()),
            "whether it is vacant",
        );
    }
}

#[test]
fn keeps_its_low_byte_while_it_is_vacant(rt: HostRuntime) {
    let mut region = Region::vacant();
    region.allocate(1);
    fast_register(rt.alloc(), &mut region, 254);
    for low in [255, 0, 1] {
        let _ = region.deregister();
        if region.is_vacant() {
            let _ = region.register(rt.alloc(), SLOT, run(0, 1), 1, WRITE);
        }
        holds(
            &rt,
            key_of(&region) == Some(Key(0x0200_0500 + low)),
            "the low byte after the latest",
        );
    }
}

#[test]
fn counts_bound_windows(rt: HostRuntime) {
    let mut region = region_in(rt.alloc(), Stage::FastRegistered, true);
    bind(&mut region);
    holds(&rt, region.bound() == 2, "two");
    if region.bound() > 0 {
        region.note_unbind();
    }
    holds(&rt, region.bound() == 1, "one");
}
