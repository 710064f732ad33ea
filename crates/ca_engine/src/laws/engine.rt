ghost use Rattle.std.specs.Prelude.{◌≡◌, ℕ, List};
ghost use Rattle.ca_base.specs.Configuration.{Configuration};
ghost use Rattle.ca_engine.specs.Engine.{engine_after_all, offer_of, opening_engine};
ghost use Rattle.ca_engine.specs.Quiet.{AllNotReady};
ghost use Rattle.ca_engine.specs.declared.offer.Offer.TheVariants as variants;
ghost use Rattle.ca_engine.specs.declared.outcome.Outcome.{Outcome};

/// Whatever an engine was told, it offers Quiet only where each offer of a round, and of the timer pass behind it,
/// was told to be not ready at one clock, or is a consumer's that was told to be at its end; and these were told
/// last.
pub fn quiet_comes_when_all_are_not_ready()
    ensures { (c : Configuration) (consumers : ℕ) (told : List Outcome)
        → offer_of (engine_after_all (opening_engine c consumers) told) ≡ variants.Quiet
        → AllNotReady c consumers told }
{}
