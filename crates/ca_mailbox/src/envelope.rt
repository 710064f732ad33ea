ghost use Rattle.std.specs.Prelude.{◌≡◌, ◌&&◌, not};
ghost use Rattle.ca_base.specs.objects.Mailbox.{deliveries, is_hold, is_lost, is_ready, is_undelivered};

use ca_base::{Lot, MailEnvelope};

/// How many deliveries an envelope of this lot wants.
pub(crate) fn deliveries(lot: Lot) -> u64
    ensures { result ≡ deliveries lot }
{
    match lot {
        Lot::Pass | Lot::Hold(_) => 1,
        Lot::Lose => 0,
        Lot::Repeat(more) => u64::from(more) + 1,
    }
}

/// Whether the weather loses it.
pub(crate) fn is_lost(lot: Lot) -> bool
    ensures { result ≡ is_lost lot }
{
    matches!(lot, Lot::Lose)
}

/// Whether the weather holds it.
pub(crate) fn is_hold(lot: Lot) -> bool
    ensures { result ≡ is_hold lot }
{
    matches!(lot, Lot::Hold(_))
}

/// Whether an envelope may be delivered now, where so many later ones were.
fn is_ready(all_held: bool, later: u64, lot: Lot) -> bool
    ensures { result ≡ is_ready all_held later lot }
{
    match lot {
        Lot::Hold(wanted) => all_held || u64::from(wanted) <= later,
        Lot::Pass | Lot::Lose | Lot::Repeat(_) => true,
    }
}

/// Whether an envelope is undelivered and not held.
pub(crate) fn is_unheld(envelope: &MailEnvelope) -> bool
    ensures { result ≡ (is_undelivered envelope.now && not (is_hold envelope.now.lot)) }
{
    is_undelivered(envelope) && !is_hold(envelope.lot)
}

/// Whether an envelope is undelivered and ready, where so many later ones were delivered.
pub(crate) fn is_due(envelope: &MailEnvelope, all_held: bool, later: u64) -> bool
    ensures { result ≡ (is_undelivered envelope.now && is_ready all_held later envelope.now.lot) }
{
    is_undelivered(envelope) && is_ready(all_held, later, envelope.lot)
}

/// Whether an envelope had fewer deliveries than it wants.
pub(crate) fn is_undelivered(envelope: &MailEnvelope) -> bool
    ensures { result ≡ is_undelivered envelope.now }
{
    envelope.delivered < deliveries(envelope.lot)
}
