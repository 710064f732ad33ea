ghost use Rattle.std.specs.Prelude.{◌<◌, ◌≤◌, OnOk, length, true, false};
ghost use Rattle.ca_wire.specs.Decoding.{Returns, payload_behind};

use crate::wire_error::WireError;
use ca_base::limits::MAX_PAYLOAD_BYTES;

/// The payload behind headers of this many bytes, which have to be there, without its pad bytes.
#[inline(always)]
#[tactic(auto, unfolding(crate::specs::Decoding::payload_behind, crate::specs::Decoding::payload_at))]
pub fn payload_behind(size: usize, pad: u8, bytes: &[u8]) -> Result<&[u8], WireError>
    requires { pad < 4 }
    ensures payload { Returns (λ p. p.now) result (payload_behind size true pad bytes.now) }
    ensures whole { OnOk result (size ≤ length bytes.now) }
{
    if bytes.len() < size {
        return Err(WireError::TooShort);
    }
    let (_, rest) = bytes.split_at(size);
    if rest.len() % 4 != 0 {
        return Err(WireError::Length);
    }
    if rest.is_empty() {
        return if pad == 0 {
            Ok(rest)
        } else {
            Err(WireError::Pad)
        };
    }
    let len = rest.len() - usize::from(pad);
    if len > MAX_PAYLOAD_BYTES {
        return Err(WireError::Length);
    }
    Ok(&rest[..len])
}

/// The same, where no payload may stand: the empty one.
#[inline(always)]
#[tactic(auto, unfolding(crate::specs::Decoding::payload_behind, crate::specs::Decoding::payload_at))]
pub fn nothing_behind(size: usize, pad: u8, bytes: &[u8]) -> Result<&[u8], WireError>
    ensures payload { Returns (λ p. p.now) result (payload_behind size false pad bytes.now) }
    ensures whole { OnOk result (size ≤ length bytes.now) }
{
    if bytes.len() < size {
        return Err(WireError::TooShort);
    }
    let (_, rest) = bytes.split_at(size);
    if !rest.is_empty() {
        return Err(WireError::Length);
    }
    if pad != 0 {
        return Err(WireError::Pad);
    }
    Ok(rest)
}
