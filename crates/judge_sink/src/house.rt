//! A house of which one core does again what notes tell.

ghost use Rattle.std.specs.Prelude.{◌≡◌, [], ◌∷◌, true, false};
ghost use Rattle.base_words.specs.Journal.{EachNote};
ghost use Rattle.base_words.specs.Lawful.{MayStand};
ghost use Rattle.judge_sink.specs.Judging.{OpensTwin};

use crate::orders::Closings;
use crate::senders::Senders;
use crate::twin::Twin;
use base_words::{CoreNo, Note};
use host_house::{HostedHouse, OpenError, open_house};
use std::alloc::Global;
use std::marker::Model;

/// How many notes a journal of the house keeps, beside as many as a link has places.
const ROOM: u32 = 1024;

/// A core that does its notes again, and the other actors, who send what it delivers.
#[derive(Drop)]
pub(crate) struct House {
    twin: Twin,
    senders: Senders,
    closings: Closings,
}

impl Model for House {
    ghost use Rattle.judge_sink.specs.Twins.{TwinView};

    ghost Value = { TwinView };

    ghost view = { λ house. house.twin };
}

impl House {
    /// A house of whose core nothing was read.
    ///
    /// # Errors
    ///
    /// `BadConfig` for a number that is out of its range, else `Memory`.
    pub(crate) fn open(
        alloc: Global,
        core: CoreNo,
        cores: u8,
        cap: u16,
        burst: u8,
    ) -> Result<Self, OpenError>
        ensures { OpensTwin core cores cap burst result }
    {
        if core.0 >= cores {
            return Err(OpenError::BadConfig);
        }
        let HostedHouse {
            cores: mut all,
            outside,
        } = open_house(alloc, cores, cap, burst, ROOM + u32::from(cap))?;
        let hosted = all.remove(core.0 as usize);
        match Senders::of(alloc, core, cap, all, outside) {
            Ok(senders) => Ok(House {
                twin: Twin::of(hosted),
                senders,
                closings: Closings::new(),
            }),
            Err(_) => Err(OpenError::Memory),
        }
    }

    /// Sends the order of which the note tells, if it tells of a delivery. Whether it has its name.
    fn sends(&mut self, note: &Note<u64>, effect: &Note<u64>) -> bool
        ensures { self.new ≡ self.old }
    {
        match self.closings.order(note, effect) {
            Some(envelope) => self.senders.sends(envelope),
            None => true,
        }
    }

    /// Reads the next note. `effect` is the note behind it, where it has an effect. Whether a core writes it there.
    pub(crate) fn reads(&mut self, note: &Note<u64>, effect: &Note<u64>) -> bool
        ensures terms { self.new.terms ≡ self.old.terms }
        ensures read { result ≡ true → self.new.read ≡ note.now ∷ self.old.read }
        ensures lawful { EachNote (MayStand self.new.terms) self.new.read }
    {
        let sent = self.sends(note, effect);
        let is = self.twin.reads(note);
        self.closings.add(note);
        self.twin.is_lawful();
        sent && is
    }
}
