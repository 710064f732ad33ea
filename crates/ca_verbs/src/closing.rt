ghost use Rattle.std.specs.Prelude.{◌<◌, IfErr, IfOk};
ghost use Rattle.ca_base.specs.declared.limits.TheConstants.{MAX_PASSES};
ghost use Rattle.ca_verbs.specs.Closed.{IsCauseOf, IsPassOut};
ghost use Rattle.ca_verbs.specs.Closing.{AreInPlace, AreRemains, IsHistoryOf, IsLawful};
ghost use Rattle.ca_verbs.specs.Passes.{IsOf, entries_in, known_of, settings_in};

use crate::close_error::CloseError;
use crate::fabric::Fabric;
use crate::pass::Pass;
use crate::placing::{all_fit, collect, place_all, places};
use ca_base::limits::MAX_PASSES;
use ca_model::Entry;
use ca_verbs_machine::SharedPart;

/// The most entries of a history.
const MAX_ENTRIES: usize = 4_294_967_294;

/// What is left of a fabric that has ended.
#[derive(Drop)]
pub struct Remains {
    /// The entries of all passes in the order of their stamps, from 0 on.
    pub entries: Vec<Entry>,
    /// The parts as they are after the last entry, each at its place.
    pub parts: Vec<SharedPart>,
}

impl Fabric {
    /// Ends the fabric: the entries of all passes in the order of their stamps, from 0 on, each with the number of the pass
    /// that made it. `History::of` makes a history of them, and takes no memory for it. `PassOut` comes exactly where the
    /// share of the pass is below 2^32; `Memory` is the other refusal. Either gives both back as they were.
    pub fn close(self, pass: Pass) -> Result<Vec<Entry>, CloseError>
        requires of { IsOf self pass }
        ensures out { (known_of pass).share < MAX_PASSES → IsPassOut result }
        ensures cause { IfErr result (λ e. IsCauseOf self pass e) }
        ensures history { IfOk result (λ j. IsHistoryOf (settings_in self) (known_of pass) j.items) }
        ensures entries { IfOk result (λ j. AreInPlace (entries_in pass) j.items) }
        ensures lawful { IfOk result (λ j. IsLawful (settings_in self) j.items) }
    {
        let Remains { entries, parts: _ } = self.into_parts(pass)?;
        Ok(entries)
    }

    /// Ends the fabric as `close` does, and gives its parts too. The entries are those of the pass and no others.
    pub fn into_parts(self, pass: Pass) -> Result<Remains, CloseError>
        requires of { IsOf self pass }
        ensures out { (known_of pass).share < MAX_PASSES → IsPassOut result }
        ensures cause { IfErr result (λ e. IsCauseOf self pass e) }
        ensures remains { IfOk result (λ left. AreRemains (settings_in self) (known_of pass) left.entries.items
            left.parts.items) }
        ensures entries { IfOk result (λ left. AreInPlace (entries_in pass) left.entries.items) }
        ensures lawful { IfOk result (λ left. IsLawful (settings_in self) left.entries.items) }
    {
        if pass.parts.share() != MAX_PASSES {
            return Err(CloseError::PassOut(self, pass));
        }
        let count = pass.entries.len();
        if count > MAX_ENTRIES {
            return Err(CloseError::Memory(self, pass));
        }
        let Ok((mut slots, mut out)) = places(self.alloc, count) else {
            return Err(CloseError::Memory(self, pass));
        };
        let Fabric { parts, alloc: _ } = self;
        let Pass {
            parts: token,
            held: _held,
            names: _names,
            out: _out,
            mut entries,
            latest: _,
        } = pass;
        let Ok((values, clock)) = parts.close(token) else {
            unreachable!()
        };
        place_all(&mut entries, &mut slots);
        slots.truncate(clock as usize);
        collect(slots, &mut out);
        all_fit(out.as_slice());
        Ok(Remains {
            entries: out,
            parts: values,
        })
    }
}
