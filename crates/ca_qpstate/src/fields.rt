ghost use Rattle.std.specs.Prelude.{◌≡◌, ◌<◌, ◌^◌, IfNone};
ghost use Rattle.ca_base.specs.objects.StateTable as table;
ghost use Rattle.ca_base.specs.declared.settings.Settings.{Settings};
ghost use Rattle.ca_base.specs.ca_keys.declared.names.QueueId.{QueueId};
ghost use Rattle.ca_base.specs.declared.change.Change.TheVariants as changes;
ghost use Rattle.ca_model.specs.machine.Invariants.{NamesPeer};
ghost use Rattle.ca_qpstate.specs.Fields.{refusal_of_fields};

use ca_base::limits::{MAX_READS, MAX_RETRY, MAX_RNR_CODE, PSN_COUNT};
use ca_base::{Change, Field, ModifyRefusal, QueueId, Settings};

/// Whether so many bytes are a path MTU.
fn is_path_mtu(mtu: u16) -> bool
    ensures { result ≡ table.is_path_mtu mtu }
{
    matches!(mtu, 256 | 512 | 1024 | 2048 | 4096)
}

/// The first field of a change to Ready to Receive that is out of its range.
fn rtr_refusal(
    settings: &Settings,
    queue: QueueId,
    peer: QueueId,
    incarnation: u32,
    psn: u32,
    mtu: u16,
    rnr_code: u8,
) -> Option<ModifyRefusal>
    ensures first { result ≡ refusal_of_fields settings.now queue (changes.Rtr peer incarnation psn mtu rnr_code) }
    ensures narrow { IfNone result (peer.number < 2 ^ 24) }
{
    if !settings.has_queue(peer) || peer == queue {
        Some(ModifyRefusal::OutOfRange(Field::Peer))
    } else if incarnation == 0 {
        Some(ModifyRefusal::OutOfRange(Field::Incarnation))
    } else if psn >= PSN_COUNT {
        Some(ModifyRefusal::OutOfRange(Field::Psn))
    } else if !is_path_mtu(mtu) {
        Some(ModifyRefusal::OutOfRange(Field::Mtu))
    } else if rnr_code > MAX_RNR_CODE {
        Some(ModifyRefusal::OutOfRange(Field::RnrCode))
    } else {
        None
    }
}

/// The first field of a change to Ready to Send that is out of its range.
fn rts_refusal(psn: u32, retry: u8, rnr_retry: u8, reads: u8) -> Option<ModifyRefusal>
    ensures { (s : Settings) → (q : QueueId) → result ≡ refusal_of_fields s q (changes.Rts psn retry rnr_retry reads) }
{
    if psn >= PSN_COUNT {
        Some(ModifyRefusal::OutOfRange(Field::Psn))
    } else if retry > MAX_RETRY {
        Some(ModifyRefusal::OutOfRange(Field::Retry))
    } else if rnr_retry > MAX_RETRY {
        Some(ModifyRefusal::OutOfRange(Field::RnrRetry))
    } else if reads == 0 || reads > MAX_READS {
        Some(ModifyRefusal::OutOfRange(Field::Reads))
    } else {
        None
    }
}

/// The first field of a change that is out of its range.
pub fn field_refusal(settings: &Settings, queue: QueueId, change: &Change) -> Option<ModifyRefusal>
    ensures first { result ≡ refusal_of_fields settings.now queue change.now }
    ensures peer { IfNone result (NamesPeer change.now) }
{
    match *change {
        Change::Rtr {
            peer,
            incarnation,
            psn,
            mtu,
            rnr_code,
        } => rtr_refusal(settings, queue, peer, incarnation, psn, mtu, rnr_code),
        Change::Rts {
            psn,
            retry,
            rnr_retry,
            reads,
        } => rts_refusal(psn, retry, rnr_retry, reads),
        Change::Init | Change::Sqd | Change::Resume | Change::Error | Change::Reset => None,
    }
}
