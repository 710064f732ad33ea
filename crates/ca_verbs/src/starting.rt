ghost use Rattle.std.specs.Prelude.{◌≡◌, ◌<◌, [], IfErr, IfOk, Err, None, map};
ghost use Rattle.ca_base.specs.Configuration.{configuration_in, configuration_of, part_count as count_of};
ghost use Rattle.ca_base.specs.declared.limits.TheConstants.{MAX_PARTS};
ghost use Rattle.ca_verbs_machine.specs.Values.{value_of};
ghost use Rattle.ca_parts.specs.Views.{first_view};
ghost use Rattle.ca_verbs.specs.Passes.{IsOf, entries_in, known_of, latest_of, settings_in};
ghost use Rattle.ca_adapter_opening.specs.Limits.{IsWithin};
ghost use Rattle.ca_verbs.specs.Starting.{IsCause};
ghost use Rattle.ca_verbs.specs.declared.start_error.StartError.TheVariants as errors;

use crate::fabric::Fabric;
use crate::pass::Pass;
use crate::start_error::StartError;
use ca_adapter_opening::{is_within, parts, zero_contents};
use ca_adapter_parts::{Held, Part};
use ca_base::limits::MAX_PARTS;
use ca_base::{Config, Memory, Settings, part_count};
use ca_model::Opening;
use ca_parts::Parts;
use ca_verbs_machine::SharedPart;
use std::alloc::Global;

impl Fabric {
    /// A fabric of this configuration, all bytes of which are zeros, and the first pass. `BadConfig` comes exactly where a
    /// number is not within its limits, `TooManyParts` exactly where there would be more parts than there may be, and
    /// `Memory` last.
    pub fn start(alloc: Global, config: Config) -> Result<(Fabric, Pass), StartError>
        ensures of { IfOk result (λ r. IsOf r.0 r.1 × (configuration_in (settings_in r.0) ≡ configuration_of config)) }
        ensures first { IfOk result (λ r. (known_of r.1 ≡ first_view (settings_in r.0)) × (latest_of r.1 ≡ None)
            × (entries_in r.1 ≡ [])) }
        ensures cause { IfErr result (λ e. IsCause (configuration_of config) e) }
        ensures bad { ¬ IsWithin (configuration_of config) → result ≡ Err errors.BadConfig }
        ensures many { IsWithin (configuration_of config) → MAX_PARTS < count_of (configuration_of config)
            → result ≡ Err (errors.TooManyParts (count_of (configuration_of config))) }
    {
        if !is_within(&config) {
            return Err(StartError::BadConfig);
        }
        let count = part_count(&config);
        if count > u64::from(MAX_PARTS) {
            return Err(StartError::TooManyParts(count));
        }
        let contents = zero_contents(alloc, &config)?;
        let opening = Opening { config, contents };
        let values = shared(alloc, parts(alloc, &opening)?)?;
        let (parts, pass) = Parts::start(alloc, Settings::of(&opening.config), values)?;
        Ok((
            Fabric { parts, alloc },
            Pass {
                parts: pass,
                held: Held::empty(alloc),
                names: Vec::new(alloc),
                out: Vec::new(alloc),
                entries: Vec::new(alloc),
                latest: None,
            },
        ))
    }
}

/// The parts, to be shared.
fn shared(alloc: Global, mut parts: Vec<Part>) -> Result<Vec<SharedPart>, Memory>
    ensures { IfOk result (λ values. values.items ≡ map value_of parts.items) }
{
    let mut values = Vec::with_capacity(alloc, parts.len())?;
    while let Some(part) = parts.pop() {
        values.push_reserved(SharedPart::of(part));
    }
    values.reverse();
    Ok(values)
}
