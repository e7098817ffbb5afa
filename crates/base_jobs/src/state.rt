//! What the jobs of one core share.

use base_words::CoreNo;

/// What the jobs of one core share. Each core has its own, which is lent to each poll, so no lock guards it.
///
/// The caller of a runtime hands one in for each core, as far as it is made there. `begin` makes the rest.
pub trait CoreState: Drop {
    /// Makes what is still to be made, on the thread of the core and before its first poll.
    fn begin(&mut self, core: CoreNo);
}

/// Jobs that share nothing.
impl CoreState for () {
    fn begin(&mut self, _core: CoreNo) {}
}
