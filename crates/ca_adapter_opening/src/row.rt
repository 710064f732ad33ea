ghost use Rattle.std.specs.Prelude.{◌≡◌, ℕ, IfOk, IfSome, Some, length, slice_get};
ghost use Rattle.ca_base.specs.Configuration.{configuration_of, part_count};
ghost use Rattle.ca_model.specs.declared.part_name.PartName.{PartName};
ghost use Rattle.ca_model.specs.machine.Sound.{AreLimited};
ghost use Rattle.ca_adapter_opening.specs.Opening as machine;
ghost use Rattle.ca_model_places.specs.Places.{all_parts, place_of};

use crate::adapters::push_adapter;
use ca_adapter_parts::Part;
use ca_base::Memory;
use ca_model::Opening;
use std::alloc::Global;

/// The parts before the first event, in the order of `place`: one for each configured name. The contents are the bytes
/// of each buffer in rising adapter and buffer, each of the configured length. `Memory` is its only refusal.
pub fn parts(alloc: Global, opening: &Opening) -> Result<Vec<Part>, Memory>
    requires limited { AreLimited (configuration_of opening.now.config) }
    requires contents { machine.FitContents (configuration_of opening.now.config) opening.now.contents }
    ensures all { IfOk result (λ row. machine.AreParts
        (machine.IsOpeningPart (configuration_of opening.now.config) opening.now.contents)
        (all_parts (configuration_of opening.now.config)) row.items) }
    ensures count { IfOk result (λ row. length row.items ≡ part_count (configuration_of opening.now.config)) }
    ensures each { IfOk result (λ row. (name : PartName) (n : ℕ)
        → place_of (configuration_of opening.now.config) name ≡ Some n
        → IfSome (slice_get row.items n)
        (machine.IsOpeningPart (configuration_of opening.now.config) opening.now.contents name)) }
{
    let mut row = Vec::new(alloc);
    for (number, adapter) in opening.config.adapters.as_slice().iter().enumerate() {
        push_adapter(alloc, opening, number, adapter, &mut row)?;
    }
    Ok(row)
}
