ghost use Rattle.std.specs.Prelude.{◌≡◌, ◌≤◌, ◌+◌, OnOk, Some, length, map, slice_get, sum_by, take};
ghost use Rattle.ca_base.specs.Configuration.{adapter_of, configuration_of};
ghost use Rattle.ca_base.specs.declared.limits.TheConstants.{MAX_ADAPTERS};
ghost use Rattle.ca_model.specs.machine.Sound.{AreLimited};
ghost use Rattle.ca_adapter_opening.specs.Added.{AddsParts};
ghost use Rattle.ca_adapter_opening.specs.Opening as machine;
ghost use Rattle.ca_model_places.specs.Places.{parts_at};

use crate::buffers::push_buffers;
use crate::domains::push_domains;
use ca_adapter_parts::Part;
use ca_base::{AdapterConfig, Bytes, Memory};
use ca_model::Opening;
use std::alloc::Global;

/// Adds the parts of an adapter: those of its domains, all vacant, and its buffers with their contents.
pub(crate) fn push_adapter(
    alloc: Global,
    opening: &Opening,
    number: usize,
    adapter: &AdapterConfig,
    row: &mut Vec<Part>,
) -> Result<(), Memory>
    requires there { slice_get opening.now.config.adapters.items number ≡ Some adapter.now }
    requires limited { AreLimited (configuration_of opening.now.config) }
    requires contents { machine.FitContents (configuration_of opening.now.config) opening.now.contents }
    ensures { OnOk result (AddsParts
        (machine.IsOpeningPart (configuration_of opening.now.config) opening.now.contents)
        (parts_at number (adapter_of adapter.now)) row.old.items row.new.items) }
{
    let sizes = adapter.buffers.as_slice();
    let contents = contents_of(opening, number, adapter);
    push_domains(alloc, adapter, number as u8, row)?;
    push_buffers(alloc, number as u8, sizes, contents, row)?;
    Ok(())
}

/// The contents of the buffers of an adapter.
fn contents_of<'a>(opening: &'a Opening, number: usize, adapter: &AdapterConfig) -> &'a [Bytes]
    requires there { slice_get opening.now.config.adapters.items number ≡ Some adapter.now }
    requires contents { machine.FitContents (configuration_of opening.now.config) opening.now.contents }
    ensures value { result.now ≡ take (length adapter.now.buffers.items)
        (machine.contents_from (configuration_of opening.now.config) opening.now.contents number) }
    ensures fit { map length result.now ≡ adapter.now.buffers.items }
{
    let first = first_buffer(opening, number, adapter);
    let count = adapter.buffers.len();
    &opening.contents.as_slice()[first..first + count]
}

/// How many buffers the adapters before this one have.
fn first_buffer(opening: &Opening, number: usize, adapter: &AdapterConfig) -> usize
    requires there { slice_get opening.now.config.adapters.items number ≡ Some adapter.now }
    requires contents { machine.FitContents (configuration_of opening.now.config) opening.now.contents }
    ensures value { result ≡ machine.buffers_before (configuration_of opening.now.config) number }
    ensures within { result + length adapter.now.buffers.items ≤ length opening.now.contents }
{
    let before = &opening.config.adapters.as_slice()[..number];
    buffer_count(before)
}

/// How many buffers these adapters have.
fn buffer_count(adapters: &[AdapterConfig]) -> usize
    requires { length adapters.now ≤ MAX_ADAPTERS }
    ensures { result ≡ sum_by (λ a. length a.buffers) (map adapter_of adapters.now) }
{
    let mut count = 0;
    for adapter in adapters {
        count += adapter.buffers.len();
    }
    count
}
