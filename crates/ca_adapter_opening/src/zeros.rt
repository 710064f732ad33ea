ghost use Rattle.std.specs.Prelude.{◌≡◌, ◌++◌, IfOk, OnOk, replicate};
ghost use Rattle.ca_base.specs.Configuration.{configuration_of};
ghost use Rattle.ca_keys.specs.Memory.{zeros};
ghost use Rattle.ca_adapter_opening.specs.Opening.{FitContents, opening_bytes};
ghost use Rattle.ca_adapter_opening.specs.Zeros.{zeros_of};

use ca_base::{Bytes, Config, Items, Memory};
use ca_model::Contents;
use std::alloc::Global;

/// The contents of a configuration's buffers before anything is written to them: zeros, in each as many as its bytes.
/// `Memory` is its only refusal.
pub fn zero_contents(alloc: Global, config: &Config) -> Result<Contents, Memory>
    ensures fit { IfOk result (FitContents (configuration_of config.now)) }
    ensures zeros { IfOk result (λ contents. opening_bytes (configuration_of config.now) contents ≡ zeros) }
{
    let mut contents = Vec::new(alloc);
    for adapter in config.adapters.as_slice() {
        push_zeros(alloc, adapter.buffers.as_slice(), &mut contents)?;
    }
    Ok(Items::from(contents))
}

/// Adds the contents of buffers of these sizes.
fn push_zeros(alloc: Global, sizes: &[u32], contents: &mut Vec<Bytes>) -> Result<(), Memory>
    ensures { OnOk result (contents.new.items ≡ contents.old.items ++ zeros_of sizes.now) }
{
    for size in sizes {
        contents.push(zeros(alloc, *size)?)?;
    }
    Ok(())
}

/// So many zeros.
fn zeros(alloc: Global, size: u32) -> Result<Bytes, Memory>
    ensures { IfOk result (λ bytes. bytes ≡ replicate size 0) }
{
    Ok(Items::from(vec![in alloc; 0; size as usize]?))
}
