ghost use Rattle.std.specs.Prelude.{◌≡◌};
ghost use Rattle.ca_trace_lex.specs.Words.{Reads, GivesAs};
ghost use Rattle.ca_trace_read_verbs.specs.Verbs as reading;

use ca_base::{Change, QueueId, Slot};
use ca_model::Verb;
use ca_trace_lex::{Pieces, Stop, is_name};

/// A change to Ready to Receive.
#[tactic(auto, unfolding(crate::specs::Verbs::rtr_at))]
fn rtr_at(words: &mut Pieces) -> Result<Verb, Stop>
    ensures { Reads (λ x. x) result words.new (reading.rtr_at words.old) }
{
    let slot = words.take::<Slot>()?;
    let peer = words.take::<QueueId>()?;
    let incarnation = words.take::<u32>()?;
    let psn = words.take::<u32>()?;
    let mtu = words.take::<u16>()?;
    let rnr_code = words.take::<u8>()?;
    let change = Change::Rtr {
        peer,
        incarnation,
        psn,
        mtu,
        rnr_code,
    };
    Ok(Verb::ModifyQp { slot, change })
}

/// A change to Ready to Send.
#[tactic(auto, unfolding(crate::specs::Verbs::rts_at))]
fn rts_at(words: &mut Pieces) -> Result<Verb, Stop>
    ensures { Reads (λ x. x) result words.new (reading.rts_at words.old) }
{
    let slot = words.take::<Slot>()?;
    let psn = words.take::<u32>()?;
    let retry = words.take::<u8>()?;
    let rnr_retry = words.take::<u8>()?;
    let reads = words.take::<u8>()?;
    let change = Change::Rts {
        psn,
        retry,
        rnr_retry,
        reads,
    };
    Ok(Verb::ModifyQp { slot, change })
}

/// A change that names nothing else.
#[tactic(auto, unfolding(crate::specs::Verbs::plain_change_at))]
fn plain_change_at(change: Change, words: &mut Pieces) -> Result<Verb, Stop>
    ensures { Reads (λ x. x) result words.new (reading.plain_change_at change words.old) }
{
    let slot = words.take::<Slot>()?;
    Ok(Verb::ModifyQp { slot, change })
}

/// A change of a queue pair's state, by its name.
#[tactic(auto, unfolding(crate::specs::Verbs::change_at))]
pub(crate) fn change_at(name: &[u8], words: &mut Pieces) -> Result<Verb, Stop>
    ensures { Reads (λ x. x) result words.new (reading.change_at name.now words.old) }
{
    if is_name(name, "rtr") {
        rtr_at(words)
    } else if is_name(name, "rts") {
        rts_at(words)
    } else if is_name(name, "reset") {
        plain_change_at(Change::Reset, words)
    } else if is_name(name, "init") {
        plain_change_at(Change::Init, words)
    } else if is_name(name, "sqd") {
        plain_change_at(Change::Sqd, words)
    } else if is_name(name, "resume") {
        plain_change_at(Change::Resume, words)
    } else if is_name(name, "error") {
        plain_change_at(Change::Error, words)
    } else {
        Err(Stop::Outside)
    }
}
