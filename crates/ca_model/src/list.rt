ghost use Rattle.std.specs.Prelude.{◌≡◌, ◌≤◌, length};
ghost use Rattle.ca_base.specs.declared.limits.TheConstants.{MAX_PIECES};
ghost use Rattle.ca_model.specs.Requests as requests;

use ca_base::Piece;

/// The bytes of a scatter or gather list, before it is judged.
pub fn list_length(list: &[Piece]) -> u64
    requires { length list.now ≤ MAX_PIECES }
    ensures { result ≡ requests.list_length list.now }
{
    let mut bytes = 0;
    for piece in list {
        bytes += u64::from(piece.length);
    }
    bytes
}
