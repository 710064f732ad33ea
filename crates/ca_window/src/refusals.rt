ghost use Rattle.std.specs.Prelude.{◌≡◌, ◌%◌};
ghost use Rattle.std.specs.Option.{option_copied, option_map_or};
ghost use Rattle.ca_base.specs.ca_keys.Numbers.{index_of};
ghost use Rattle.ca_base.specs.ca_keys.Refusals.{first_of};
ghost use Rattle.ca_base.specs.objects.Window as windows;

use ca_base::{RegionView, Rights, WindowError};

/// Why a bind over a region is refused, in order.
pub fn binding_refusal(
    r: Option<&RegionView>,
    address: u64,
    length: u32,
    rights: Rights,
) -> Option<WindowError>
    ensures { result ≡ first_of (windows.binding_refusals (option_copied r.entry) address length rights) }
{
    let Some(view) = r else {
        return Some(WindowError::RegionNotValid);
    };
    if !view.valid {
        return Some(WindowError::RegionNotValid);
    }
    if !view.rights.window_bind {
        return Some(WindowError::NoBindRight);
    }
    if exceeds(rights, view) {
        return Some(WindowError::RightsNeedLocalWrite);
    }
    if !is_within(address, length, view) {
        return Some(WindowError::OutsideRegion);
    }
    None
}

fn exceeds(rights: Rights, view: &RegionView) -> bool
    ensures { result ≡ windows.exceeds_region rights view.now }
{
    (rights.remote_write || rights.remote_atomic) && !view.rights.local_write
}

fn is_within(address: u64, length: u32, view: &RegionView) -> bool
    ensures { result ≡ windows.is_within address length view.now }
{
    if address < view.address {
        return false;
    }
    let before = address - view.address;
    before <= u64::from(view.length) && u64::from(length) <= u64::from(view.length) - before
}

/// The slot of the region that is seen.
pub fn region_slot(r: Option<&RegionView>) -> u16
    ensures { result ≡ option_map_or (λ v. index_of v.key % 0x8000) (option_copied r.entry) 0 }
{
    match r {
        None => 0,
        Some(view) => (view.key.index() % 0x8000) as u16,
    }
}
