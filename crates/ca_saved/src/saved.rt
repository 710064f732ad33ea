use arrayvec::ArrayVec;
use ca_base::SavedResult;
use ca_base::limits::SAVED_RESULTS;
use std::marker::Model;

/// The results of the last 16 atomics of a queue pair. Contracts see the list of them, the newest first.
#[derive(Drop)]
pub struct Saved {
    results: ArrayVec<SavedResult, SAVED_RESULTS>,
}

impl Model for Saved {
    ghost use Rattle.std.specs.Prelude.{List};
    ghost use Rattle.ca_base.specs.declared.saved_result.SavedResult.{SavedResult};

    ghost Value = { List SavedResult };

    ghost view = { λ s. s.results.items };
}

impl Saved {
    ghost use Rattle.std.specs.Prelude.{◌≡◌, []};
    ghost use Rattle.ca_base.specs.objects.Saved.{after_save, saved_at};

    /// No results. It takes no memory, as none of the calls does.
    pub fn empty() -> Saved
        ensures { result ≡ [] }
    {
        Saved {
            results: ArrayVec::new(),
        }
    }

    /// Keeps what the atomic at a PSN found. Of 16 results the oldest goes.
    pub fn keep(&mut self, psn: u64, found: u64)
        ensures { self.new ≡ after_save psn found self.old }
    {
        if self.results.is_full() {
            self.results.pop();
        }
        self.results.insert(0, SavedResult { psn, found });
    }

    /// What the atomic at a PSN found. None comes exactly where no result of that PSN is kept.
    pub fn find(&self, psn: u64) -> Option<u64>
        ensures { result ≡ saved_at psn self.now }
    {
        for result in self.results.as_slice() {
            if result.psn == psn {
                return Some(result.found);
            }
        }
        None
    }
}
