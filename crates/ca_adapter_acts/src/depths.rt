ghost use Rattle.std.specs.Prelude.{◌≡◌};
ghost use Rattle.ca_model.specs.machine.CompletionVerbs as machine;

use ca_base::limits::MAX_DEPTH;

/// Whether a depth is out of its range.
pub fn is_no_depth(depth: u16) -> bool
    ensures { result ≡ machine.is_no_depth depth }
{
    depth == 0 || usize::from(depth) > MAX_DEPTH
}
