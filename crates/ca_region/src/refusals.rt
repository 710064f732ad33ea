ghost use Rattle.std.specs.Prelude.{◌≡◌, ◌%◌, Some};
ghost use Rattle.ca_base.specs.Grants as grants;
ghost use Rattle.ca_base.specs.objects.Region as regions;

use crate::pages::repeats;
use ca_base::limits::PAGE_BYTES;
use ca_base::{RegionError, Rights, Run};

/// Why a registration is refused, in order.
pub fn registration_refusal(at: Run, buffer_length: u32, rights: Rights) -> Option<RegionError>
    ensures { result ≡ grants.registration_refusal at buffer_length rights }
{
    if at.length == 0 {
        return Some(RegionError::Empty);
    }
    if at.offset > buffer_length || at.length > buffer_length - at.offset {
        return Some(RegionError::OutsideBuffer);
    }
    if needs_local_write(rights) {
        return Some(RegionError::RightsNeedLocalWrite);
    }
    None
}

/// Whether remote write or remote atomic is asked without local write.
pub fn needs_local_write(rights: Rights) -> bool
    ensures { result ≡ grants.needs_local_write rights }
{
    (rights.remote_write || rights.remote_atomic) && !rights.local_write
}

/// Whether a page list does not fit its range, the end of all addresses or what was allocated.
pub fn has_bad_pages(allocated: u16, address: u64, length: u32, pages: &[u16]) -> bool
    ensures { result ≡ regions.has_bad_pages (Some allocated) address length pages.now }
{
    length == 0
        || u64::from(length) - 1 > u64::MAX - address
        || usize::from(allocated) < pages.len()
        || repeats(pages)
        || pages.len() as u64 != pages_needed(address, length)
}

fn pages_needed(address: u64, length: u32) -> u64
    ensures { result ≡ regions.pages_needed address length }
{
    let page = u64::from(PAGE_BYTES);
    (address % page + u64::from(length) + page - 1) / page
}
