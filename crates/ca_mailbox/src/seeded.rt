ghost use Rattle.std.specs.Prelude.{◌≡◌, ◌+◌, ◌%◌};
ghost use Rattle.ca_mailbox.specs.Weather.{drawn_word, lot_of_word};

use ca_base::limits::PSN_COUNT;
use ca_base::{Lot, QueueId};
use rand_core::utils::NextWord;
use rand_pcg::Pcg32;

/// How far apart the numbers of two adapters' mailboxes begin: queue pair numbers have 24 bits, as PSNs have.
const ADAPTER_UNIT: u64 = PSN_COUNT as u64;

/// The first word of the generator of a seed, a mailbox and a number.
pub(crate) fn drawn_word(seed: u64, queue: QueueId, number: u64) -> u32
    ensures { result ≡ drawn_word seed queue number }
{
    let mailbox = u64::from(queue.adapter) * ADAPTER_UNIT + u64::from(queue.number);
    Pcg32::new(seed.wrapping_add(mailbox), number).next_word()
}

/// The lot that a word stands for.
pub(crate) fn lot_of_word(word: u32) -> Lot
    ensures { result ≡ lot_of_word word }
{
    match word % 64 {
        0..=3 => Lot::Lose,
        4..=5 => Lot::Repeat(1),
        6..=7 => Lot::Hold((word / 64 % 8) as u8 + 1),
        _ => Lot::Pass,
    }
}
