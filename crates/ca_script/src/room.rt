ghost use Rattle.std.specs.Prelude.{◌≡◌, ◌-◌, nat_le, if◌then◌else◌, Some, None, map, sum};
ghost use Rattle.ca_base.specs.Configuration.{adapter_of};
ghost use Rattle.ca_script.specs.Setup as setup;

use ca_base::AdapterConfig;

/// The room that is left behind so many bytes, where they fit.
#[tactic(auto, using(crate::proofs::RoomLemmas::taking))]
fn behind_buffers(room: u64, buffers: &[u32]) -> Option<u64>
    ensures { result ≡ (if nat_le (sum buffers.now) room then Some (room - sum buffers.now) else None) }
{
    let mut left = room;
    for bytes in buffers {
        let bytes = u64::from(*bytes);
        if left < bytes {
            return None;
        }
        left -= bytes;
    }
    Some(left)
}

/// Whether the bytes of all buffers fit into this room.
#[tactic(auto, using(crate::proofs::RoomLemmas::fitting))]
pub(crate) fn fits(room: u64, adapters: &[AdapterConfig]) -> bool
    ensures { result ≡ nat_le (setup.total_bytes (map adapter_of adapters.now)) room }
{
    let mut left = room;
    for adapter in adapters {
        match behind_buffers(left, adapter.buffers.as_slice()) {
            Some(rest) => left = rest,
            None => return false,
        }
    }
    true
}
