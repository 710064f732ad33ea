ghost use Rattle.std.specs.Prelude.{◌≡◌, ℕ, ◌<◌, ◌≤◌, List, length};
ghost use Rattle.ca_law_bounds.specs.CalmRuns.{AreAllClean};
ghost use Rattle.ca_law_scripts.specs.CalmScripts.{AreUntroubled, IsCalmScript, most_entries};
ghost use Rattle.ca_keys.specs.Memory.{zeros};
ghost use Rattle.ca_model.specs.Entries.{EntryValue};
ghost use Rattle.ca_model.specs.Past.{after_entries, opening_past};
ghost use Rattle.ca_model.specs.machine.Run.{Follows};
ghost use Rattle.ca_model.specs.machine.Sound.{AreLimited};
ghost use Rattle.ca_script_order.specs.OfScript.{BudgetSpent, LeadsTo, status_of};
ghost use Rattle.ca_script_order.specs.Order.{Stage, ending, order};
ghost use Rattle.ca_law_scripts.specs.Rest.{AreCallable};
ghost use Rattle.ca_script.specs.Script.{ScriptValue};

/// A history of a script in calm weather that follows the machine, that nothing befalls (by its marks no timer fires,
/// nothing is lost and no RNR NAK is sent) and in which every connection is clean has at most four entries for each
/// packet that the script's lines post, counted at the smallest path MTU, and one for each line. Where the script
/// allows more events, its status is not that they are spent.
pub fn calm_scripts_are_bounded()
    ensures entries { (s : ScriptValue) (es : List EntryValue) (end : Stage) → AreLimited s.config
        → AreCallable s.consumers → IsCalmScript s → LeadsTo s es end → Follows s.config zeros es → AreUntroubled es
        → AreAllClean (after_entries es (opening_past zeros)) → length es ≤ most_entries s }
    ensures status { (s : ScriptValue) (es : List EntryValue) (end : Stage) → AreLimited s.config
        → AreCallable s.consumers → IsCalmScript s → LeadsTo s es end → Follows s.config zeros es → AreUntroubled es
        → AreAllClean (after_entries es (opening_past zeros)) → most_entries s < s.config.events
        → (n : ℕ) → status_of s end ≡ BudgetSpent n → ⊥ }
{}

/// So of the order of a script, which is such a history.
pub fn calm_orders_are_bounded()
    ensures { (s : ScriptValue) → AreLimited s.config → AreCallable s.consumers → IsCalmScript s
        → AreUntroubled (order s) → AreAllClean (after_entries (order s) (opening_past zeros))
        → most_entries s < s.config.events → (n : ℕ) → status_of s (ending s) ≡ BudgetSpent n → ⊥ }
{}
