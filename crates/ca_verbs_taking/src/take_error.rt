use ca_model::PartName;

/// Why not all parts were taken.
#[derive(Clone, Copy)]
pub enum TakeError {
    /// This part was taken.
    Busy(PartName),
    /// The clock read this, which is not below the limit of events.
    Full(u64),
}
