ghost use Rattle.std.specs.Prelude.{◌≡◌, ◌<◌, ◌^◌, Some, IfOk, length, sum_by};
ghost use Rattle.std.specs.Option.{option_copied};
ghost use Rattle.ca_base.specs.Configuration.{Configuration, configuration_in};
ghost use Rattle.ca_keys.specs.Memory.{bytes_at};
ghost use Rattle.ca_run_seed.specs.Buffers.{HasTwoBuffers, IsBufferSeen, buffer_in, sum_in};
ghost use Rattle.ca_model.specs.machine.World.{World};
ghost use Rattle.ca_script_order.specs.Summary.{runs_from};
ghost use Rattle.ca_script_run.specs.ca_adapter_store.Rows.{IsRow, IsRowOf, part_at};

use ca_adapter_parts::Part;
use ca_base::{Memory, Run};
use ca_memory::Buffer;
use ca_model::PartName;
use ca_model_places::place;
use ca_script_run::ca_adapter_store::Row;
use std::alloc::Global;

/// The sum of all bytes of two buffers, one at each of two adapters.
pub(crate) fn byte_sum(alloc: Global, row: &Row) -> Result<u64, Memory>
    requires { IsRow row.now }
    ensures { IfOk result (λ sum. (c : Configuration) (w : World) → IsRowOf c w row.now → HasTwoBuffers c
        → sum ≡ sum_by (λ byte. byte) (bytes_at w.byte (runs_from 0 c.adapters))) }
{
    let first = buffer_sum(alloc, row, 0, 0)?;
    let second = buffer_sum(alloc, row, 1, 0)?;
    Ok(first + second)
}

/// The sum of all bytes of a buffer, 0 where it is not configured.
fn buffer_sum(alloc: Global, row: &Row, adapter: u8, buffer: u16) -> Result<u64, Memory>
    requires { IsRow row.now }
    ensures sum { IfOk result (λ sum. (c : Configuration) (w : World) → IsRowOf c w row.now
        → sum ≡ sum_in c w adapter buffer) }
    ensures most { IfOk result (λ sum. sum < 2 ^ 40) }
{
    let Some(length) = row.settings.buffer_length(adapter, buffer) else {
        return Ok(0);
    };
    let run = Run {
        adapter,
        buffer,
        offset: 0,
        length,
    };
    match buffer_at(row, adapter, buffer) {
        Some(there) => {
            let mut bytes = Vec::new(alloc);
            there.read(&run, &mut bytes)?;
            Ok(sum_of(&bytes))
        }
        None => unreachable!(),
    }
}

/// The buffer of an adapter. None comes where it is not configured.
fn buffer_at(row: &Row, adapter: u8, buffer: u16) -> Option<&Buffer>
    ensures { (c : Configuration) (w : World) → IsRowOf c w row.now
        → IsBufferSeen c w adapter buffer (option_copied result) }
{
    let name = PartName::Buffer {
        adapter,
        index: buffer,
    };
    match part(row, name) {
        Some(part) => buffer_in(part),
        None => None,
    }
}

/// The part at the place of a name.
fn part(row: &Row, name: PartName) -> Option<&Part>
    ensures { option_copied result ≡ part_at (configuration_in row.now.settings) row.now.parts.items name }
{
    let at = place(&row.settings, &name)?;
    row.parts.get(at as usize)
}

/// The buffer that a part is.
fn buffer_in(part: &Part) -> Option<&Buffer>
    ensures { option_copied result ≡ buffer_in (Some part.now) }
{
    match part {
        Part::Buffer(buffer) => Some(buffer),
        _ => None,
    }
}

/// The sum of bytes.
fn sum_of(bytes: &[u8]) -> u64
    requires { length bytes.now < 2 ^ 32 }
    ensures sum { result ≡ sum_by (λ byte. byte) bytes.now }
    ensures most { result < 2 ^ 40 }
{
    let mut sum = 0;
    for byte in bytes {
        sum += u64::from(*byte);
    }
    sum
}
