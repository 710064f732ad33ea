ghost use Rattle.std.specs.Prelude.{◌≡◌};
ghost use Rattle.ca_model.specs.machine.Invariants as invariants;

use ca_base::State;

/// Whether requests are sent in a state.
pub fn is_sending(state: State) -> bool
    ensures { result ≡ invariants.is_sending state }
{
    matches!(state, State::Rts | State::Sqd)
}
