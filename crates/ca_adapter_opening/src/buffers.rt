ghost use Rattle.std.specs.Prelude.{◌≡◌, ◌≤◌, IfOk, OnOk, length, map};
ghost use Rattle.std.specs.List.{range_with_len};
ghost use Rattle.ca_base.specs.declared.limits.TheConstants.{MAX_BUFFERS};
ghost use Rattle.ca_model.specs.declared.part_name.PartName.TheVariants as names;
ghost use Rattle.ca_adapter_opening.specs.Added.{AddsParts, IsBufferOf};

use ca_adapter_parts::Part;
use ca_base::{Bytes, Memory, Run};
use ca_memory::Buffer;
use std::alloc::Global;

/// Adds the buffers of an adapter, each with its contents.
pub(crate) fn push_buffers(
    alloc: Global,
    number: u8,
    sizes: &[u32],
    contents: &[Bytes],
    row: &mut Vec<Part>,
) -> Result<(), Memory>
    requires few { length sizes.now ≤ MAX_BUFFERS }
    requires fit { map length contents.now ≡ sizes.now }
    ensures { OnOk result (AddsParts (IsBufferOf number contents.now)
        (map (names.Buffer number) (range_with_len 0 (length sizes.now))) row.old.items row.new.items) }
{
    for index in 0..sizes.len() {
        let buffer = buffer_with(alloc, sizes[index], contents[index].as_slice())?;
        row.push(Part::Buffer(buffer))?;
    }
    Ok(())
}

/// A buffer with these bytes.
fn buffer_with(alloc: Global, size: u32, bytes: &[u8]) -> Result<Buffer, Memory>
    requires { length bytes.now ≡ size }
    ensures { IfOk result (λ buffer. buffer ≡ bytes.now) }
{
    let mut buffer = Buffer::zeroed(alloc, size)?;
    let whole = Run {
        adapter: 0,
        buffer: 0,
        offset: 0,
        length: size,
    };
    buffer.write(&whole, bytes);
    Ok(buffer)
}
