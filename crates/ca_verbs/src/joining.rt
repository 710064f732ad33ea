ghost use Rattle.std.specs.Prelude.{◌≡◌, ◌≤◌, ◌+◌, ◌++◌, IfErr, OnErr, OnOk, length, vec_capacity};
ghost use Rattle.ca_parts.specs.Views.{joined_with};
ghost use Rattle.ca_verbs.specs.Passes.{IsOf, entries_in, known_of, latest_of};

use crate::fabric::Fabric;
use crate::pass::Pass;
use ca_model::Entry;

impl Fabric {
    /// Adds the share, the entries, the notes and the refusals of `other`, whose numbers are not used again; its entries
    /// stand behind those of `into`. `Err` gives
    /// `other` back as it was, and is want of memory alone. It waits for nobody.
    pub fn join(&self, into: &mut Pass, other: Pass) -> Result<(), Pass>
        requires into { IsOf self.now into.old }
        requires other { IsOf self.now other }
        ensures of { IsOf self.now into.new }
        ensures joined { OnOk result (known_of into.new ≡ joined_with (known_of into.old) (known_of other)) }
        ensures entries { OnOk result (entries_in into.new ≡ entries_in into.old ++ entries_in other) }
        ensures latest { latest_of into.new ≡ latest_of into.old }
        ensures same { OnErr result ((known_of into.new ≡ known_of into.old)
            × (entries_in into.new ≡ entries_in into.old)) }
        ensures back { IfErr result (λ p. p ≡ other) }
    {
        if into.entries.reserve(other.entries.len()).is_err() {
            return Err(other);
        }
        let Pass {
            parts,
            held: _held,
            names: _names,
            out: _out,
            entries,
            latest: _,
        } = other;
        self.parts.join(&mut into.parts, parts);
        add_entries(&mut into.entries, entries);
        Ok(())
    }
}

/// Adds entries, for which there is room, behind others.
fn add_entries(into: &mut Vec<Entry>, mut more: Vec<Entry>)
    requires { length into.old.items + length more.items ≤ vec_capacity into.old }
    ensures { into.new.items ≡ into.old.items ++ more.items }
{
    into.append(&mut more).unwrap();
}
