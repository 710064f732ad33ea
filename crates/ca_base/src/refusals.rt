ghost use Rattle.std.specs.Prelude.{◌≡◌, Some};
ghost use Rattle.ca_base.specs.Spelling.{region_error_text, window_error_text, op_refusal_text};
ghost use Rattle.ca_base.specs.declared.refusals.RegistrationError.TheVariants as registrations;

use ca_keys::Memory;
use std::fmt;

/// Why a call on a memory region is refused. Want of memory is no refusal.
#[derive(Clone, Copy, PartialEq, Eq)]
pub enum RegionError {
    /// A registration of no bytes.
    Empty,
    /// A registration that would pass the end of its buffer.
    OutsideBuffer,
    /// Remote write or remote atomic is asked without local write.
    RightsNeedLocalWrite,
    /// A fast registration of a region that is not free.
    NotFree,
    /// A fast registration whose page list does not fit its range, its end or what was allocated.
    BadPages,
    /// An invalidation of a region that is not valid.
    NotValid,
    /// An invalidation by another key than the one in force.
    KeyDiffers,
    /// An invalidation of a region that was registered in the ordinary way (this profile's choice).
    NotFastRegistered,
    /// Windows are bound to the region.
    WindowsBound,
    /// There is no region in the slot.
    Vacant,
}

impl fmt::Display for RegionError {
    ghost output = { λ error. Some (region_error_text error) };

    fn fmt<W: fmt::Write>(&self, f: &mut fmt::Formatter<W>) -> fmt::Result {
        f.write_str(match self {
            RegionError::Empty => "empty",
            RegionError::OutsideBuffer => "outside-buffer",
            RegionError::RightsNeedLocalWrite => "rights-need-local-write",
            RegionError::NotFree => "not-free",
            RegionError::BadPages => "bad-pages",
            RegionError::NotValid => "not-valid",
            RegionError::KeyDiffers => "key-differs",
            RegionError::NotFastRegistered => "not-fast-registered",
            RegionError::WindowsBound => "windows-bound",
            RegionError::Vacant => "vacant",
        })
    }
}

/// Why a registration or a fast registration granted nothing.
#[derive(Clone, Copy)]
pub enum RegistrationError {
    Refused(RegionError),
    /// Nothing refuses it, but it is out of memory.
    Memory,
}

impl From<Memory> for RegistrationError {
    ghost from_gives = { λ _ error. error ≡ registrations.Memory };

    fn from(_memory: Memory) -> RegistrationError {
        RegistrationError::Memory
    }
}

/// Why a call on a memory window is refused.
#[derive(Clone, Copy)]
pub enum WindowError {
    /// There is no window in the slot.
    NoWindow,
    /// The window is not of the type that the request binds.
    WrongType,
    /// The region that the bind names is not valid, or has another key.
    RegionNotValid,
    /// The region lacks the window bind right.
    NoBindRight,
    /// Remote write or remote atomic is asked over a region without local write.
    RightsNeedLocalWrite,
    /// The range is not within the region.
    OutsideRegion,
    /// The type 2 window is bound already.
    StillBound,
    /// A type 2 bind of no bytes.
    Empty,
    /// An invalidation of a type 1 window.
    Type1,
    /// An invalidation of a window that is not bound.
    NotBound,
    /// An invalidation by another key than the one in force.
    KeyDiffers,
    /// The window is bound through another queue pair.
    WrongQueue,
}

impl fmt::Display for WindowError {
    ghost output = { λ error. Some (window_error_text error) };

    fn fmt<W: fmt::Write>(&self, f: &mut fmt::Formatter<W>) -> fmt::Result {
        f.write_str(match self {
            WindowError::NoWindow => "no-window",
            WindowError::WrongType => "wrong-type",
            WindowError::RegionNotValid => "region-not-valid",
            WindowError::NoBindRight => "no-bind-right",
            WindowError::RightsNeedLocalWrite => "rights-need-local-write",
            WindowError::OutsideRegion => "outside-region",
            WindowError::StillBound => "still-bound",
            WindowError::Empty => "empty",
            WindowError::Type1 => "type1",
            WindowError::NotBound => "not-bound",
            WindowError::KeyDiffers => "key-differs",
            WindowError::WrongQueue => "wrong-queue",
        })
    }
}

/// Why a bind, a fast registration or an invalidation is refused. Want of memory is no refusal.
#[derive(Clone, Copy)]
pub enum OpRefusal {
    Region(RegionError),
    Window(WindowError),
}

impl fmt::Display for OpRefusal {
    ghost output = { λ refusal. Some (op_refusal_text refusal) };

    fn fmt<W: fmt::Write>(&self, f: &mut fmt::Formatter<W>) -> fmt::Result {
        match self {
            OpRefusal::Region(error) => write!(f, "region:{error}"),
            OpRefusal::Window(error) => write!(f, "window:{error}"),
        }
    }
}
