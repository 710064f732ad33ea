ghost use Rattle.std.specs.Prelude.{◌≡◌, ◌<◌, Some};
ghost use Rattle.ca_keys.specs.Spelling.{key_text};

use crate::names::Slot;
use std::fmt;

/// A memory key. The L_Key and the R_Key of a region are one number (this profile's choice): the key index of its
/// slot in the high 24 bits, and the low byte, which changes from grant to grant.
#[derive(Clone, Copy, Default, PartialEq, Eq)]
pub struct Key(pub u32);

impl Key {
    ghost use Rattle.ca_keys.specs.Numbers.{region_index, window_index, index_of, low_of, key_at};
    ghost use Rattle.ca_keys.specs.Numbers.{is_window_key};

    /// The key of the region in a slot, with this low byte.
    pub fn of_region(slot: Slot, low: u8) -> Key
        ensures { result ≡ key_at (region_index slot) low }
    {
        Key((u32::from(slot.domain.domain) * 0x10000 + u32::from(slot.slot)) * 256 + u32::from(low))
    }

    /// The key of the window in a slot, with this low byte. Window indices stand above all region indices of the
    /// domain.
    pub fn of_window(slot: Slot, low: u8) -> Key
        requires { slot.slot < 32768 }
        ensures { result ≡ key_at (window_index slot) low }
    {
        let index = u32::from(slot.domain.domain) * 0x10000 + 0x8000 + u32::from(slot.slot);
        Key(index * 256 + u32::from(low))
    }

    /// The key index: the high 24 bits.
    pub fn index(self) -> u32
        ensures { result ≡ index_of self }
    {
        self.0 / 256
    }

    /// Whether it is the key of a window, and not of a region.
    pub fn names_window(self) -> bool
        ensures { result ≡ is_window_key self }
    {
        self.index() % 0x10000 >= 0x8000
    }

    /// The low byte.
    pub fn low(self) -> u8
        ensures { result ≡ low_of self }
    {
        (self.0 % 256) as u8
    }
}

impl fmt::Display for Key {
    ghost output = { λ key. Some (key_text key) };

    fn fmt<W: fmt::Write>(&self, f: &mut fmt::Formatter<W>) -> fmt::Result {
        let mut digits = [0u8; 8];
        let _ = hex::encode_to_slice(self.0.to_be_bytes(), &mut digits);
        match str::from_utf8(&digits) {
            Ok(digits) => write!(f, "0x{digits}"),
            Err(_) => Err(fmt::Error),
        }
    }
}
