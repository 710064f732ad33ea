use ca_base::{Pages, Run};

/// Where the bytes of a valid region lie.
#[derive(Drop)]
pub enum Places {
    /// In a run, by an ordinary registration.
    OneRun(Run),
    /// In pages of a buffer, by a fast registration of a region that was allocated for so many pages.
    PageList {
        allocated: u16,
        buffer: u16,
        pages: Pages,
    },
}
