/// What one atomic found, with its PSN.
#[derive(Clone, Copy, Default)]
pub struct SavedResult {
    pub psn: u64,
    pub found: u64,
}
