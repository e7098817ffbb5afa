//! The table of one core. All jobs of the core share it, and no lock guards it: it is lent to one poll at a time.

use duthlwyran::{CoreNo, CoreState};
use std::alloc::Global;
use std::collections::BTreeSet;

/// The keys that were committed on one core, those that are leased there, and how often it was read.
#[derive(Drop)]
pub struct Table {
    pub alloc: Global,
    pub keys: Vec<u32>,
    pub leased: BTreeSet<u32>,
    pub reads: u64,
}

impl CoreState for Table {
    // On the thread of the core, so that the pages come from memory that is near to it.
    fn begin(&mut self, _core: CoreNo) {
        if let Ok(keys) = Vec::with_capacity(self.alloc, 64) {
            self.keys = keys;
        }
    }
}
