ghost use Rattle.std.specs.Prelude.{◌≡◌};
ghost use Rattle.ca_model.specs.machine.Parts.{Part, part};
ghost use Rattle.ca_adapter_footprint.specs.Next.{next_of};

use ca_adapter_parts::Held;
use ca_model::PartName;

/// The part, if it is not held.
pub(crate) fn missing(held: &Held, name: PartName) -> Option<PartName>
    ensures { result ≡ next_of held.now (part name) }
{
    if held.has(&name) { None } else { Some(name) }
}

/// The first of two parts that is not held.
pub(crate) fn missing_of(held: &Held, first: PartName, second: PartName) -> Option<PartName>
    ensures { result ≡ next_of held.now (Part first (part second)) }
{
    if !held.has(&first) {
        return Some(first);
    }
    missing(held, second)
}
