ghost use Rattle.std.specs.Prelude.{◌≡◌};
ghost use Rattle.ca_base.specs.Configuration.{configuration_in, part_count as count_of};
ghost use Rattle.ca_model.specs.machine.Sound.{AreLimited};
ghost use Rattle.ca_parts.specs.Rows.{part_count, settings_of};
ghost use Rattle.ca_verbs.specs.Kept.{limited_prop};

use ca_parts::Parts;
use ca_verbs_machine::SharedPart;
use std::alloc::Global;

/// Adapters that threads share by `&`. Each caller has a pass.
#[derive(Drop)]
pub struct Fabric {
    pub(crate) parts: Parts<SharedPart>,
    pub(crate) alloc: Global,
    ghost row: { part_count parts ≡ count_of (configuration_in (settings_of parts)) },
    ghost limited: { AreLimited (configuration_in (settings_of parts)) } by { limited_prop (configuration_in (settings_of parts)) },
}
