ghost use Rattle.std.specs.Option.{option_copied};
ghost use Rattle.std.specs.Prelude.{◌≡◌, OnOk, reverse};
ghost use Rattle.ca_keys.specs.Allowed as allowed;
ghost use Rattle.ca_isolation.specs.InForce.{AreInForce};
ghost use Rattle.ca_model.specs.Past.{Past, after_mark};

use ca_base::{Ask, Grant, Memory};
use ca_model::Mark;

/// The grants in force behind a mark: one that comes into force is the last, and those whose key is revoked are gone.
pub(crate) fn follow_mark(mark: &Mark, in_force: &mut Vec<Grant>) -> Result<(), Memory>
    ensures { OnOk result ((past : Past) → AreInForce in_force.old.items past
        → AreInForce in_force.new.items (after_mark mark.now past)) }
{
    match mark {
        Mark::Granted(grant) => in_force.push(grant.clone()?)?,
        Mark::Revoked { adapter, key } => {
            in_force.retain(|grant| !(grant.domain.adapter == *adapter && grant.key == *key));
        }
        _ => {}
    }
    Ok(())
}

/// The grant that an ask goes by: of those with its key and its domain the latest.
pub(crate) fn grant_for<'a>(in_force: &'a [Grant], ask: &Ask) -> Option<&'a Grant>
    ensures { option_copied result ≡ allowed.grant_for ask.now (reverse in_force.now) }
{
    let mut latest = None;
    for grant in in_force {
        if grant.fits(ask) {
            latest = Some(grant);
        }
    }
    latest
}
