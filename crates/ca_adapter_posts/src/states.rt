ghost use Rattle.std.specs.Prelude.{◌≡◌, [], ◌∷◌};
ghost use Rattle.ca_base.specs.declared.change.State.TheVariants as states;
ghost use Rattle.ca_base.specs.objects.StateTable.{is_among, state_eq};

use ca_base::State;

/// Whether a queue pair is in Reset, where no receive is posted.
pub(crate) fn is_reset(state: State) -> bool
    ensures { result ≡ state_eq state states.Reset }
{
    matches!(state, State::Reset)
}

/// Whether a queue pair is in Error, where all that is posted is flushed at once.
pub(crate) fn is_error(state: State) -> bool
    ensures { result ≡ state_eq state states.Error }
{
    matches!(state, State::Error)
}

/// Whether send requests are posted in a state.
pub(crate) fn takes_sends(state: State) -> bool
    ensures { result ≡ is_among (states.Rts ∷ states.Sqd ∷ states.Error ∷ []) state }
{
    matches!(state, State::Rts | State::Sqd | State::Error)
}
