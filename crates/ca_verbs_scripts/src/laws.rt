ghost use Rattle.std.specs.Prelude.{◌≡◌, ℕ, List, Some, map, slice_get};
ghost use Rattle.ca_verbs_machine.specs.After.{IsUp};
ghost use Rattle.ca_verbs_machine.specs.declared.asked.Told.{Told};
ghost use Rattle.ca_model.specs.Entries.{EntryValue};
ghost use Rattle.ca_script_order.specs.OfScript.{LeadsTo};
ghost use Rattle.ca_parts.specs.Lists.{Has};
ghost use Rattle.ca_verbs_scripts.specs.Work.{HasWorked, numbered, stage_after};
ghost use Rattle.ca_script.specs.Script.{ScriptValue};
ghost use Rattle.ca_script_lines.specs.declared.Line.{Line};

/// A list of the machine whose entries are the work of a script is a history of the script, and leads to the lines that
/// are left.
pub fn worked_histories_are_of_their_scripts()
    ensures { (s : ScriptValue) (log : List Told) (left : List (List Line)) (es : List EntryValue)
        → IsUp s.config log → HasWorked s (numbered 0 log) left
        → map (λ e. e.event) es ≡ map (λ e. e.event) log → LeadsTo s es (stage_after s log es left) }
{}

/// Entries that are the work of a script, and are those of a list, each at its stamp, are its work in the order of the
/// list, too.
pub fn works_are_in_their_history()
    ensures { (s : ScriptValue) (entries : List (ℕ × Told)) (log : List Told) (left : List (List Line))
        → HasWorked s entries left → ((m : ℕ) (e : Told) → Has (m, e) entries → slice_get log m ≡ Some e)
        → ((m : ℕ) (e : Told) → slice_get log m ≡ Some e → Has (m, e) entries)
        → HasWorked s (numbered 0 log) left }
{}
