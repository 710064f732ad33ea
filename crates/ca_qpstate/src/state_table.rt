ghost use Rattle.std.specs.Prelude.{◌≡◌};
ghost use Rattle.ca_base.specs.objects.StateTable.{allowed_from, is_among};

use ca_base::{Change, State};

/// Whether a change leads from a state: the state table's column of states, a row for each change.
pub fn is_allowed_from(change: &Change, state: State) -> bool
    ensures { result ≡ is_among (allowed_from change.now) state }
{
    match change {
        Change::Init => matches!(state, State::Reset),
        Change::Rtr { .. } => matches!(state, State::Init),
        Change::Rts { .. } => matches!(state, State::Rtr),
        Change::Sqd => matches!(state, State::Rts),
        Change::Resume => matches!(state, State::Sqd),
        Change::Error => !matches!(state, State::Reset),
        Change::Reset => true,
    }
}
