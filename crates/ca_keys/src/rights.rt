ghost use Rattle.std.specs.Prelude.{◌≡◌, [], if◌then◌else◌, Some};
ghost use Rattle.ca_keys.specs.Allowed as allowed;
ghost use Rattle.ca_keys.specs.Spelling.{rights_text, has_right};

use crate::access::{KeyUse, Kind};
use std::fmt;

/// What a key allows. A local read needs no right. A remote write or a remote atomic needs local write beside it.
#[derive(Clone, Copy, Default, PartialEq, Eq)]
pub struct Rights {
    pub local_write: bool,
    pub remote_read: bool,
    pub remote_write: bool,
    pub remote_atomic: bool,
    pub window_bind: bool,
}

impl Rights {
    /// Whether these rights suffice for an access of this kind, by an L_Key or by an R_Key.
    pub fn suffice(self, by: KeyUse, kind: Kind) -> bool
        ensures { result ≡ allowed.suffice self by kind }
    {
        match (by, kind) {
            (KeyUse::RKey, Kind::Read) => self.remote_read,
            (KeyUse::RKey, Kind::Write) => self.remote_write,
            (KeyUse::RKey, Kind::CmpSwap | Kind::FetchAdd) => self.remote_atomic,
            (KeyUse::LKey, Kind::Read) => true,
            (KeyUse::LKey, Kind::Write) => self.local_write,
            (KeyUse::LKey, Kind::CmpSwap | Kind::FetchAdd) => false,
        }
    }

    fn has_one(self) -> bool
        ensures { result ≡ has_right self }
    {
        self.local_write
            || self.remote_read
            || self.remote_write
            || self.remote_atomic
            || self.window_bind
    }
}

fn letter(holds: bool, text: &'static str) -> &'static str
    ensures { result.now ≡ (if holds then text.now else []) }
{
    if holds { text } else { "" }
}

impl fmt::Display for Rights {
    ghost output = { λ rights. Some (rights_text rights) };

    fn fmt<W: fmt::Write>(&self, f: &mut fmt::Formatter<W>) -> fmt::Result {
        if !self.has_one() {
            return f.write_str("-");
        }
        let l = letter(self.local_write, "l");
        let r = letter(self.remote_read, "r");
        let w = letter(self.remote_write, "w");
        let a = letter(self.remote_atomic, "a");
        let b = letter(self.window_bind, "b");
        write!(f, "{l}{r}{w}{a}{b}")
    }
}
