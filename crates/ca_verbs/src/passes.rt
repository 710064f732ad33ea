ghost use Rattle.std.specs.Prelude.{◌≡◌, ◌↔◌, ◌<◌, [], IfOk, IsErr, None, OnErr, option_copied};
ghost use Rattle.ca_parts.specs.Views.{lower_half, upper_half, with_look};
ghost use Rattle.ca_verbs.specs.Passes.{IsOf, entries_in, known_of, latest_of, settings_in};
ghost use Rattle.ca_verbs_machine.specs.Meanings.{CanFollow, StandsFor, next_of};
ghost use Rattle.ca_parts.specs.Calls.{Sees};

use crate::fabric::Fabric;
use crate::pass::Pass;
use ca_adapter_parts::Held;
use ca_model::Entry;
use ca_parts::Spent;

impl Pass {
    /// The entry of the latest call with this pass that answered a receipt, and None exactly where there was no such call.
    /// Calls of a pass that was joined into it do not count. It takes no memory.
    pub fn latest(&self) -> Option<&Entry>
        ensures { option_copied result ≡ latest_of self.now }
    {
        let at = self.latest?;
        self.entries.get(at)
    }
}

impl Fabric {
    /// How many entries there are, by a look at the clock. Later stamps of this pass are at least that, and its stamps
    /// before are below it. It takes no memory and waits for nobody.
    pub fn clock(&self, pass: &mut Pass) -> u64
        requires of { IsOf self.now pass.old }
        ensures of { IsOf self.now pass.new }
        ensures noted { known_of pass.new ≡ with_look result (known_of pass.old) }
        ensures sees { Sees next_of CanFollow StandsFor (settings_in self.now) result (known_of pass.old) }
        ensures latest { latest_of pass.new ≡ latest_of pass.old }
        ensures entries { entries_in pass.new ≡ entries_in pass.old }
    {
        self.parts.look(&mut pass.parts)
    }

    /// Makes a pass with the upper half of the numbers and of the share, rounded down. `Spent` comes exactly where one
    /// number is left. It waits for nobody and takes no memory.
    pub fn split(&self, pass: &mut Pass) -> Result<Pass, Spent>
        requires of { IsOf self.now pass.old }
        ensures of { IsOf self.now pass.new }
        ensures spent { IsErr result ↔ ((known_of pass.old).count ≡ 1) }
        ensures lower { IfOk result (λ p. known_of pass.new ≡ lower_half (known_of pass.old)) }
        ensures upper { IfOk result (λ p. IsOf self.now p × (known_of p ≡ upper_half (known_of pass.old))
            × (latest_of p ≡ None) × (entries_in p ≡ [])) }
        ensures same { OnErr result (known_of pass.new ≡ known_of pass.old) }
        ensures latest { latest_of pass.new ≡ latest_of pass.old }
        ensures entries { entries_in pass.new ≡ entries_in pass.old }
    {
        let parts = self.parts.split(&mut pass.parts)?;
        Ok(Pass {
            parts,
            held: Held::empty(self.alloc),
            names: Vec::new(self.alloc),
            out: Vec::new(self.alloc),
            entries: Vec::new(self.alloc),
            latest: None,
        })
    }
}
