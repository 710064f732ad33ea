ghost use Rattle.std.specs.Prelude.{◌≡◌, ◌<◌, ◌-◌, ◌^◌, List, [], length, map, Ok};
ghost use Rattle.ca_base.specs.Configuration.{configuration_in};
ghost use Rattle.ca_base.specs.declared.settings.Settings.{Settings};
ghost use Rattle.ca_verbs_machine.specs.After.{IsUp, world_after};
ghost use Rattle.ca_verbs_machine.specs.Meanings.{CanFollow};
ghost use Rattle.ca_verbs_machine.specs.declared.asked.Told.{Told};
ghost use Rattle.ca_model.specs.machine.Run.{run};
ghost use Rattle.ca_model.specs.machine.Sound.{AreLimited};
ghost use Rattle.ca_parts.specs.Lists.{EachFollows};
ghost use Rattle.ca_law_parts.specs.Worlds.{IsWorldAfter};

/// Fewer than 2^32 - 1 entries, of which each follows those before it, are a list of the machine, where the configuration
/// keeps to its limits: the machine runs their events from an opening of zeros on, with their marks; and the world after
/// them comes up.
pub fn entries_follow_the_machine()
    ensures up { (key : Settings) (log : List Told) → AreLimited (configuration_in key)
        → EachFollows (CanFollow key) [] log → length log < 2 ^ 32 - 1 → IsUp (configuration_in key) log }
    ensures run { (key : Settings) (log : List Told) → IsUp (configuration_in key) log
        → run (configuration_in key) (map (λ e. e.event) log) ≡ Ok (map (λ e. e.marks) log) }
    ensures world { (key : Settings) (log : List Told) → IsUp (configuration_in key) log
        → IsWorldAfter (configuration_in key) (length log) (world_after (configuration_in key) log) }
{}
