use super::{ATOMIC_ALONE, SLOT, WRITE, WRITE_ALONE, holds, key_of, reason_of, run};
use ca_base::{Grant, Key, RegionError, Rights};
use ca_region::Region;

/// The offset, the length and the rights that are asked for over a buffer of 64 bytes, and why they are refused.
const ASKED: [((u32, u32), Rights, Option<RegionError>); 9] = [
    ((0, 0), WRITE, Some(RegionError::Empty)),
    ((64, 0), WRITE_ALONE, Some(RegionError::Empty)),
    ((64, 1), WRITE, Some(RegionError::OutsideBuffer)),
    ((0, 65), WRITE_ALONE, Some(RegionError::OutsideBuffer)),
    (
        (4_294_967_295, 4_294_967_295),
        WRITE,
        Some(RegionError::OutsideBuffer),
    ),
    (
        (0, 64),
        WRITE_ALONE,
        Some(RegionError::RightsNeedLocalWrite),
    ),
    (
        (0, 64),
        ATOMIC_ALONE,
        Some(RegionError::RightsNeedLocalWrite),
    ),
    ((63, 1), WRITE, None),
    ((0, 64), WRITE, None),
];

#[test]
fn refuses_for_the_first_reason(rt: HostRuntime) {
    for row in ASKED.as_slice() {
        let ((offset, length), rights, want) = *row;
        let mut region = Region::vacant();
        let given = region.register(rt.alloc(), SLOT, run(offset, length), 64, rights);
        holds(&rt, reason_of(&given) == want, "the reason");
        holds(
            &rt,
            region.is_vacant() == want.is_some(),
            "it is vacant still",
        );
    }
}

fn is_of_the_last_byte(grant: &Grant) -> bool {
    grant.key == Key(0x0200_0501)
        && grant.domain == SLOT.domain
        && grant.queue.is_none()
        && grant.local
        && grant.address == 0x4_0000_003f
        && grant.length == 1
        && grant.rights == WRITE
        && grant.runs.as_slice() == [run(63, 1)].as_slice()
}

#[test]
fn grants_the_last_byte_of_a_buffer(rt: HostRuntime) {
    let mut region = Region::vacant();
    let given = region.register(rt.alloc(), SLOT, run(63, 1), 64, WRITE);
    holds(
        &rt,
        matches!(&given, Ok(grant) if is_of_the_last_byte(grant)),
        "the grant of the last byte",
    );
    holds(
        &rt,
        key_of(&region) == Some(Key(0x0200_0501)),
        "the valid key",
    );
}
