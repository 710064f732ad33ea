ghost use Rattle.std.specs.Prelude.{◌≡◌, drop};
ghost use Rattle.ca_trace_lex.specs.Words as words;
ghost use Rattle.ca_trace_lex.specs.Words.{Gives};

use crate::in_word::InWord;
use crate::number::{u64_in, value_in};
use crate::pieces::Pieces;
use crate::stop::Stop;
use crate::word::is_name;
use ca_base::{DomainId, Key, QueueId, Rights, Slot};

/// What stands behind the first byte.
fn behind_letter(word: &[u8]) -> &[u8]
    ensures { result.now ≡ drop 1 word.now }
{
    match word {
        [] => word,
        [_, digits @ ..] => digits,
    }
}

/// A number of 64 bits behind a letter.
#[tactic(auto, unfolding(crate::specs::Words::lettered_in))]
pub fn lettered_u64_in(word: &[u8]) -> Result<u64, Stop>
    ensures { Gives result (words.lettered_in u64.MAX word.now) }
{
    u64_in(behind_letter(word))
}

/// A number of 32 bits behind a letter.
#[tactic(auto, unfolding(crate::specs::Words::lettered_in))]
pub fn lettered_u32_in(word: &[u8]) -> Result<u32, Stop>
    ensures { Gives result (words.lettered_in u32.MAX word.now) }
{
    u32::in_word(behind_letter(word))
}

/// An adapter, and a buffer there.
impl InWord for (u8, u16) {
    ghost use Rattle.ca_trace_lex.specs.Words.{in_adapter_in, max_u16};

    ghost reading = { in_adapter_in max_u16 };

    #[tactic(auto, unfolding(crate::specs::Words::in_adapter_in))]
    fn in_word(word: &[u8]) -> Result<(u8, u16), Stop> {
        let mut parts = Pieces::of(b'/', word);
        let adapter = parts.take()?;
        let buffer = parts.take()?;
        Ok((adapter, buffer))
    }
}

/// A protection domain.
#[tactic(auto, unfolding(crate::specs::Words::domain_in, crate::specs::Words::in_adapter_in))]
pub fn domain_in(word: &[u8]) -> Result<DomainId, Stop>
    ensures { Gives result (words.domain_in word.now) }
{
    let mut parts = Pieces::of(b'/', word);
    let adapter = parts.take()?;
    let domain = parts.take()?;
    Ok(DomainId { adapter, domain })
}

/// A protection domain.
impl InWord for DomainId {
    ghost use Rattle.ca_trace_lex.specs.Words.{domain_in};

    ghost reading = { domain_in };

    fn in_word(word: &[u8]) -> Result<DomainId, Stop> {
        domain_in(word)
    }
}

/// A queue pair.
impl InWord for QueueId {
    ghost use Rattle.ca_trace_lex.specs.Words.{queue_in};

    ghost reading = { queue_in };

    #[tactic(auto, unfolding(crate::specs::Words::queue_in, crate::specs::Words::in_adapter_in))]
    fn in_word(word: &[u8]) -> Result<QueueId, Stop> {
        let mut parts = Pieces::of(b'/', word);
        let adapter = parts.take()?;
        let number = parts.take()?;
        Ok(QueueId { adapter, number })
    }
}

/// An object of a domain.
impl InWord for Slot {
    ghost use Rattle.ca_trace_lex.specs.Words.{slot_in};

    ghost reading = { slot_in };

    #[tactic(auto, unfolding(crate::specs::Words::slot_in))]
    fn in_word(word: &[u8]) -> Result<Slot, Stop> {
        let mut parts = Pieces::of(b'/', word);
        let adapter = parts.take()?;
        let domain = parts.take()?;
        let slot = parts.take()?;
        Ok(Slot {
            domain: DomainId { adapter, domain },
            slot,
        })
    }
}

/// Any queue pair of a domain, or one.
#[tactic(auto, unfolding(crate::specs::Words::queues_in))]
pub(crate) fn queues_in(word: &[u8]) -> Result<Option<QueueId>, Stop>
    ensures { Gives result (words.queues_in word.now) }
{
    if is_name(word, "any") {
        return Ok(None);
    }
    Ok(Some(QueueId::in_word(word)?))
}

/// What stands behind the first two bytes.
fn behind_prefix(word: &[u8]) -> &[u8]
    ensures { result.now ≡ drop 2 word.now }
{
    behind_letter(behind_letter(word))
}

/// A memory key.
impl InWord for Key {
    ghost use Rattle.ca_trace_lex.specs.Words.{key_in};

    ghost reading = { key_in };

    #[tactic(auto, unfolding(crate::specs::Words::key_in))]
    fn in_word(word: &[u8]) -> Result<Key, Stop> {
        Ok(Key(value_in(16, u64::from(u32::MAX), behind_prefix(word))? as u32))
    }
}

/// An address.
#[tactic(auto, unfolding(crate::specs::Words::address_in))]
pub fn address_in(word: &[u8]) -> Result<u64, Stop>
    ensures { Gives result (words.address_in word.now) }
{
    value_in(16, u64::MAX, behind_prefix(word))
}

/// Whether a byte stands in a word.
pub fn has(c: u8, word: &[u8]) -> bool
    ensures { result ≡ words.has c word.now }
{
    for b in word {
        if *b == c {
            return true;
        }
    }
    false
}

/// The rights whose letters stand in a word.
impl InWord for Rights {
    ghost use Rattle.std.specs.Prelude.{Some};
    ghost use Rattle.ca_trace_lex.specs.Words.{rights_in};

    ghost reading = { λ word. Some (rights_in word) };

    #[tactic(auto, unfolding(crate::specs::Words::rights_in))]
    fn in_word(word: &[u8]) -> Result<Rights, Stop> {
        Ok(Rights {
            local_write: has(b'l', word),
            remote_read: has(b'r', word),
            remote_write: has(b'w', word),
            remote_atomic: has(b'a', word),
            window_bind: has(b'b', word),
        })
    }
}
