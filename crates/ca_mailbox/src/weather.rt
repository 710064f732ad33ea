ghost use Rattle.std.specs.Prelude.{◌≡◌};
ghost use Rattle.ca_mailbox.specs.Weather.{listed_lot, is_listed_hasten};

use crate::seeded::{drawn_word, lot_of_word};
use ca_base::{Items, Lot, QueueId};

/// A line of listed weather: the lot of a packet, by the index of its envelope, or a timer that is hastened, by how many
/// the queue pair's slot had before.
#[derive(Clone, Copy)]
pub enum WeatherLine {
    Lot {
        queue: QueueId,
        index: u64,
        lot: Lot,
    },
    Hasten {
        queue: QueueId,
        nth: u64,
    },
}

/// The lines of listed weather. Of two that name the same packet the first holds.
pub type WeatherList = Items<WeatherLine>;

/// The first stream of the generator that is drawn from for timers; those below it are for packets.
const TIMER_STREAM: u64 = 4_294_967_296;

/// What befalls packets and timers: nothing, what is listed, or what a generator draws from a seed.
#[derive(Drop)]
pub enum Weather {
    Calm,
    Listed(WeatherList),
    Seeded(u64),
}

impl Weather {
    ghost use Rattle.std.specs.Prelude.{◌≡◌};
    ghost use Rattle.ca_mailbox.specs.Weather.{lot_under, is_hastened};

    /// The lot of the envelope of this index in a queue pair's mailbox. It takes no memory.
    pub fn lot(&self, queue: QueueId, index: u64) -> Lot
        ensures { result ≡ lot_under self.now queue index }
    {
        match self {
            Weather::Calm => Lot::Pass,
            Weather::Listed(lines) => listed_lot(lines.as_slice(), queue, index),
            Weather::Seeded(seed) => lot_of_word(drawn_word(*seed, queue, index)),
        }
    }

    /// Whether a queue pair's timer is hastened, by how many its slot had before. It takes no memory.
    pub fn hasten(&self, queue: QueueId, nth: u64) -> bool
        ensures { result ≡ is_hastened self.now queue nth }
    {
        match self {
            Weather::Calm => false,
            Weather::Listed(lines) => is_listed_hasten(lines.as_slice(), queue, nth),
            Weather::Seeded(seed) => {
                drawn_word(*seed, queue, TIMER_STREAM.wrapping_add(nth)) % 16 == 0
            }
        }
    }
}

/// The lot of the first line that names the packet; without one it passes.
fn listed_lot(lines: &[WeatherLine], queue: QueueId, index: u64) -> Lot
    ensures { result ≡ listed_lot lines.now queue index }
{
    for line in lines {
        if let WeatherLine::Lot {
            queue: of,
            index: at,
            lot,
        } = *line
        {
            if of == queue && at == index {
                return lot;
            }
        }
    }
    Lot::Pass
}

/// Whether a line hastens the timer.
fn is_listed_hasten(lines: &[WeatherLine], queue: QueueId, nth: u64) -> bool
    ensures { result ≡ is_listed_hasten lines.now queue nth }
{
    for line in lines {
        if let WeatherLine::Hasten { queue: of, nth: at } = *line {
            if of == queue && at == nth {
                return true;
            }
        }
    }
    false
}
