ghost use Rattle.std.specs.Prelude.{◌≡◌};
ghost use Rattle.ca_base.specs.Grants.{remote_rights};

use ca_base::Rights;

/// The remote rights among these: a window has no other.
pub fn remote_of(rights: Rights) -> Rights
    ensures { result ≡ remote_rights rights }
{
    Rights {
        local_write: false,
        window_bind: false,
        ..rights
    }
}
