ghost use Rattle.std.specs.List.{AllByRecursion};
ghost use Rattle.std.specs.Prelude.{List};
ghost use Rattle.ca_base.specs.Configuration.{Configuration};
ghost use Rattle.ca_law_caused.specs.Rest.{DoHaveTheRest};
ghost use Rattle.ca_law_caused.specs.Listed.{DoCompleteByLists, DoHaveTheLink};
ghost use Rattle.ca_keys.specs.Memory.{ByteMap};
ghost use Rattle.ca_model.specs.Caused.{Caused};
ghost use Rattle.ca_model.specs.Entries.{EntryValue};
ghost use Rattle.ca_model.specs.machine.Run.{Follows};
ghost use Rattle.ca_model.specs.machine.Sound.{AreLimited, CanBeMade};

/// In any history, what is told of the lists of receives and what is told of the link are the rest of Caused.
pub fn lists_and_link_are_the_rest()
    ensures { (bytes : ByteMap) (es : List EntryValue) → DoCompleteByLists bytes es → DoHaveTheLink bytes es
        → DoHaveTheRest bytes es }
{}

/// In a history that follows the machine each receive that fails by its list has the cause that speaks of it: a SEND
/// arrived that is longer than that list with what came of its message before, or the event at hand was denied an access
/// by a piece of it.
pub fn receives_complete_with_their_lists()
    ensures { (c : Configuration) (bytes : ByteMap) (es : List EntryValue) → AreLimited c
        → AllByRecursion (λ e. CanBeMade e.event) es → Follows c bytes es → DoCompleteByLists bytes es }
{}

/// A history that follows the machine is Caused where each completion has the cause that speaks of the link.
pub fn machine_is_caused_but_for_the_link()
    ensures { (c : Configuration) (bytes : ByteMap) (es : List EntryValue) → AreLimited c
        → AllByRecursion (λ e. CanBeMade e.event) es → Follows c bytes es → DoHaveTheLink bytes es → Caused bytes es }
{}
