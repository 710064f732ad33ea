ghost use Rattle.std.specs.Prelude.{◌≡◌, ◌≤◌, ℕ, length, reverse};
ghost use Rattle.ca_keys.specs.Memory.{zeros};
ghost use Rattle.ca_model.specs.machine.Run.{Follows};
ghost use Rattle.ca_script_order.specs.OfScript.{HasEnded, HasStatus, LeadsTo, Status, status_of};
ghost use Rattle.ca_script_order.specs.Order.{AddsEntries, HasNoMoreLines, Stage, after_rounds, ending, most_rounds, order};
ghost use Rattle.ca_script.specs.Script.{ScriptValue};

/// The order of a script is a history of the machine over buffers of zeros.
pub fn orders_follow_the_machine()
    ensures { (s : ScriptValue) → Follows s.config zeros (order s) }
{}

/// The order of a script is a history of it: each consumer calls the verbs of its lines in order, each of its
/// events has the weather's word, what is delivered is due, and a timer fires only where all is idle. It leads to
/// where the order ends.
pub fn orders_are_of_their_scripts()
    ensures { (s : ScriptValue) → LeadsTo s (order s) (ending s) }
{}

/// The order of a script ends: as many events as the script allows were made; or all is quiet, and no consumer's
/// next verb is possible.
pub fn orders_end()
    ensures { (s : ScriptValue) → HasEnded s (ending s) }
{}

/// How the order of a script ended is what its status says (`status_of`), and no other status says what is so. The
/// order has as many entries as were counted.
pub fn orders_have_their_status()
    ensures status { (s : ScriptValue) → HasStatus s (ending s) (status_of s (ending s)) }
    ensures alone { (s : ScriptValue) (status : Status) → HasStatus s (ending s) status → status ≡ status_of s (ending s) }
    ensures count { (s : ScriptValue) → length (order s) ≡ (ending s).count }
{}

/// Rounds go on with any history of the machine over buffers of zeros, where it is one of the script that leads to
/// the stage from which they start. Whose passes made its entries does not matter.
pub fn rounds_follow_the_machine()
    ensures { (s : ScriptValue) (n : ℕ) (g : Stage)
        → Follows s.config zeros (reverse g.past) → LeadsTo s (reverse g.past) g
        → Follows s.config zeros (reverse (after_rounds s n g).past) }
{}

/// Rounds go on with any history of the script, and lead as far as they come. As many entries are there as were
/// counted.
pub fn rounds_are_of_their_scripts()
    ensures leads { (s : ScriptValue) (n : ℕ) (g : Stage) → LeadsTo s (reverse g.past) g
        → LeadsTo s (reverse (after_rounds s n g).past) (after_rounds s n g) }
    ensures count { (s : ScriptValue) (n : ℕ) (g : Stage) → LeadsTo s (reverse g.past) g
        → length (after_rounds s n g).past ≡ (after_rounds s n g).count }
{}

/// Rounds leave the entries that were there, and add entries of the pass 0 behind them.
pub fn rounds_add_entries()
    ensures { (s : ScriptValue) (n : ℕ) (g : Stage) → AddsEntries g (after_rounds s n g) }
{}

/// Rounds end from any stage with no more lines left than the script has. After as many as there can be, or more, as many
/// events were made as the script allows; or all is quiet, and no consumer's next verb is possible.
pub fn rounds_end()
    ensures { (s : ScriptValue) (n : ℕ) (g : Stage) → HasNoMoreLines s g → most_rounds s ≤ n
        → HasEnded s (after_rounds s n g) }
{}

/// How a script ended at any stage is what its status says (`status_of`), and no other status says what is so of a
/// stage.
pub fn stages_have_their_status()
    ensures status { (s : ScriptValue) (g : Stage) → HasEnded s g → HasStatus s g (status_of s g) }
    ensures alone { (s : ScriptValue) (g : Stage) (status : Status) → HasStatus s g status → status ≡ status_of s g }
{}
