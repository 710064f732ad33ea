use ca_verbs::Pass;

/// What workers did: all their calls were made with this pass, and each consumer has done so many of its lines, by its
/// number.
#[derive(Drop)]
pub(crate) struct Work {
    pub(crate) pass: Pass,
    pub(crate) done: Vec<usize>,
}
