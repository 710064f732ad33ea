use ca_base::Reason;
use ca_model::PartName;

/// Why a try made no entry.
#[derive(Clone, Copy)]
pub enum TryError {
    /// This part, which is needed for what was asked, was taken.
    Busy(PartName),
    /// The clock read this, which is not below the limit of events.
    HistoryFull(u64),
    /// After so many entries the event was not possible, for this reason.
    NotReady(u64, Reason),
    /// There was no memory.
    Memory,
}
