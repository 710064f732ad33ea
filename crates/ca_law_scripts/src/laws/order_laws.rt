ghost use Rattle.std.specs.Prelude.{◌≡◌, List};
ghost use Rattle.ca_keys.specs.Memory.{zeros};
ghost use Rattle.ca_model.specs.Entries.{EntryValue};
ghost use Rattle.ca_model.specs.History.{IsHistory};
ghost use Rattle.ca_model.specs.Past.{after_entries, opening_past};
ghost use Rattle.ca_model.specs.machine.Run.{Follows};
ghost use Rattle.ca_script_order.specs.OfScript.{LeadsTo};
ghost use Rattle.ca_script_order.specs.Order.{Stage, ending, order};
ghost use Rattle.ca_law_scripts.specs.Lawful.{IsLawfulHistory, IsLawfulOrder};
ghost use Rattle.ca_law_scripts.specs.Limits.{KeepsToLimits};
ghost use Rattle.ca_script.specs.Script.{ScriptValue};

/// The order of a script that keeps to the limits is lawful: over buffers of zeros it follows the machine, is a history,
/// is judged, licensed, ordered, carried and caused, each atomic and each packet of a WRITE of a clean connection acts at most
/// once, a closed group of domains gets what it would get alone, and it is a history of the script.
pub fn orders_are_lawful()
    ensures { (s : ScriptValue) → KeepsToLimits s → IsLawfulOrder s (order s) }
{}

/// A history of a script that keeps to the limits is lawful, if over buffers of zeros it follows the machine.
pub fn histories_of_scripts_are_lawful()
    ensures { (s : ScriptValue) (es : List EntryValue) (end : Stage) → KeepsToLimits s → IsHistory es
        → Follows s.config zeros es → LeadsTo s es end → IsLawfulHistory s es end }
{}

/// Where the order of a script that keeps to the limits ends, memory is what the marks of the order have made of zeros.
pub fn marks_tell_the_memory_of_orders()
    ensures { (s : ScriptValue) → KeepsToLimits s
        → (ending s).world.byte ≡ (after_entries (order s) (opening_past zeros)).memory }
{}
