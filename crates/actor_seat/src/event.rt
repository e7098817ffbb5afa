//! A word on which one sleeps until it is rung, or until a time has passed.
//!
//! One who sleeps lies down, tests what it waits for, and sleeps only if the test fails. Whoever makes the test succeed rings behind that.
//! Each step is `SeqCst`. A ring that finds nobody stands before the lying down, so the test behind that sees why it rang.

use std::sync::Wait;
use std::sync::atomic::AtomicU64;
use std::sync::atomic::Ordering::SeqCst;
use std::time::Duration;

/// A word on which one sleeps. A ring is one load if nobody lies down.
#[derive(Drop)]
pub(crate) struct Event {
    /// How many rings found somebody who lay down.
    rings: AtomicU64,
    /// How many lie down.
    lying: AtomicU64,
}

/// That somebody lay down. As it is dropped, that one gets up.
pub(crate) struct Key<'a> {
    of: &'a Event,
    /// How many rings there were as it lay down.
    rings: u64,
}

impl Event {
    /// A word on which nobody sleeps.
    pub(crate) fn new() -> Self {
        Event {
            rings: AtomicU64::new(0),
            lying: AtomicU64::new(0),
        }
    }

    /// From here on a ring ends the sleep.
    pub(crate) fn lie_down(&self) -> Key<'_> {
        self.lying.fetch_add(1, SeqCst);
        Key {
            of: self,
            rings: self.rings.load(SeqCst),
        }
    }

    /// Wakes one who sleeps. Whoever lies down but doesn't sleep yet won't.
    pub(crate) fn ring(&self) {
        if self.lying.load(SeqCst) != 0 {
            self.rings.fetch_add(1, SeqCst);
            self.rings.wake_one();
        }
    }
}

impl Key<'_> {
    /// Sleeps until it is rung. A sleep with a limit ends after about so many nanoseconds, and may end earlier for no reason.
    pub(crate) fn sleep<R: Wait>(self, rt: &R, limit: Option<u64>) {
        let rings = (self.rings & 0xffff_ffff) as u32;
        if let Some(time) = limit {
            if !self.is_rung() {
                self.of
                    .rings
                    .park_timeout(rt, rings, Duration::from_nanos(time));
            }
            return;
        }
        for _ in rt.forever() {
            if self.is_rung() {
                break;
            }
            self.of.rings.park(rt, rings);
        }
    }

    /// Whether it was rung since this one lay down.
    fn is_rung(&self) -> bool {
        self.of.rings.load(SeqCst) != self.rings
    }
}

impl Drop for Key<'_> {
    fn drop(self) {
        let Key { of, rings: _ } = self;
        of.lying.fetch_sub(1, SeqCst);
    }
}
