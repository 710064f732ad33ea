ghost use Rattle.std.specs.Prelude.{◌≡◌, Some, sum_by};
ghost use Rattle.ca_base.specs.Configuration.{Configuration};
ghost use Rattle.ca_script_order.specs.Summary as definition;
ghost use Rattle.ca_script_seed.specs.Text.{summary_text};

use crate::counted::{Counted, count};
use ca_model::History;
use std::fmt;
use std::marker::Model;

/// The numbers of a history. Contracts see them as the summary that is defined of it.
#[derive(Drop)]
pub struct Summary {
    pub success: u128,
    pub failed: u128,
    pub sent: u128,
    pub lost: u128,
    pub atomics: u128,
    pub events: usize,
    /// The sum of all bytes of all buffers.
    pub byte_sum: u64,
}

impl Model for Summary {
    ghost use Rattle.ca_script_order.specs.Summary.{Summary};

    ghost Value = { Summary };

    ghost view = { λ s. record {
      success = s.success;
      failed = s.failed;
      sent = s.sent;
      lost = s.lost;
      atomics = s.atomics;
      events = s.events;
      sum = s.byte_sum;
    } };
}

/// The eight lines of a made script's summary. The first says how many requests it posts.
impl fmt::Display for Summary {
    ghost output = { λ summary. Some (summary_text summary) };

    fn fmt<W: fmt::Write>(&self, f: &mut fmt::Formatter<W>) -> fmt::Result {
        let Summary {
            success,
            failed,
            sent,
            lost,
            atomics,
            events,
            byte_sum,
        } = self;
        write!(
            f,
            "requests 800\nsuccess {success}\nfailed {failed}\nsent {sent}\nlost {lost}\n\
            atomics {atomics}\nevents {events}\nsum {byte_sum}\n"
        )
    }
}

/// The summary of a history at whose end all bytes of all buffers have this sum.
pub fn summary_of(history: &History, byte_sum: u64) -> Summary
    ensures { (c : Configuration) → byte_sum ≡ sum_by (λ byte. byte) (definition.bytes_after c history.now)
        → result ≡ definition.summary c history.now }
{
    let entries = history.as_slice();
    Summary {
        success: count(Counted::Success, entries),
        failed: count(Counted::Failure, entries),
        sent: count(Counted::Sent, entries),
        lost: count(Counted::Lost, entries),
        atomics: count(Counted::Atomic, entries),
        events: entries.len(),
        byte_sum,
    }
}
