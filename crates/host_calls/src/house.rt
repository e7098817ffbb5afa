//! A house as the host keeps it: the seats that nobody took yet, and the journals that were handed in.

use host_core::Hosted;
use host_house::Outside;
use note_journal::Journal;
use std::marker::Model;

/// What a house is opened with, as `fx_config` of the header has it.
#[repr(C)]
#[derive(Clone, Copy)]
pub struct Config {
    /// The caller tells how many bytes the struct has.
    pub size: u32,
    pub cores: u32,
    pub places: u32,
    pub burst: u32,
    pub notes: u32,
}

/// The bytes of `fx_config`.
pub(crate) const CONFIG_SIZE: u32 = 20;

/// The cores that nobody took yet, by their numbers, the outside actor, if nobody took it, and the journals of the actors that ended.
#[derive(Drop)]
pub struct KeptHouse {
    pub(crate) cores: u8,
    pub(crate) cap: u16,
    pub(crate) burst: u8,
    pub(crate) left: Vec<Hosted>,
    pub(crate) outside: Option<Outside>,
    pub(crate) journals: Vec<Journal<u64>>,
    /// Whether notes of these journals were passed on.
    pub(crate) parted: bool,
}

impl Model for KeptHouse {
    ghost use Rattle.host_calls.specs.Kept.{IsWaiting, KeptView};

    ghost Value = { KeptView };

    ghost view = { λ h. record { cores = h.cores; cap = h.cap; burst = h.burst; left = h.left.items; outside = h.outside; journals = h.journals.items; parted = h.parted } };

    ghost invariant = { λ h. IsWaiting h.cores h.left.items };
}
