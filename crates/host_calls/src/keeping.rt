//! How a house is opened, gives its seats and takes their journals in.
//!
//! The journals come back in the order that a text has them: core 0 first, the outside actor last. A seat is taken in only if its journal is
//! the next one, and comes back unchanged if it isn't. Once all are in, the house can be judged and written.

ghost use Rattle.std.specs.Prelude.{◌≡◌, ◌≢◌, ◌⊎◌, ◌↔◌, ◌+◌, None, Some, IfErr, IfOk, IfSome, IsTrue, length};
ghost use Rattle.host_calls.specs.declared.code.Code.TheVariants as code;
ghost use Rattle.host_calls.specs.declared.member.Member.TheVariants.{Outside as ItsOutside};
ghost use Rattle.host_calls.specs.Ending.{Awaits, HasEndedSeat, HasPassed, IsJournalOf, IsWhole, TakesIn};
ghost use Rattle.host_calls.specs.Houses.{IsKeptOf, OpensKept, TakesCore, TakesNoCore, TakesNone, TakesOut, core_in, outside_in};

use crate::code::Code;
use crate::house::{CONFIG_SIZE, Config, KeptHouse};
use crate::links::drained;
use crate::member::Member;
use host_core::Hosted;
use host_house::{OpenError, Outside, open_house};
use host_text::EndedHouse;
use note_journal::{Assembly, Journal};
use std::alloc::Global;

impl KeptHouse {
    /// Opens a house.
    ///
    /// # Errors
    ///
    /// `BadNumber` for a number of the config that is out of its range, else `NoMemory`.
    pub fn open(alloc: Global, config: &Config) -> Result<Self, Code>
        ensures { OpensKept config.now result }
    {
        if config.size != CONFIG_SIZE {
            return Err(Code::BadNumber);
        }
        let Ok(cores) = u8::try_from(config.cores) else {
            return Err(Code::BadNumber);
        };
        let Ok(cap) = u16::try_from(config.places) else {
            return Err(Code::BadNumber);
        };
        let Ok(burst) = u8::try_from(config.burst) else {
            return Err(Code::BadNumber);
        };
        match open_house(alloc, cores, cap, burst, config.notes) {
            Ok(house) => keep(alloc, cores, cap, burst, house),
            Err(OpenError::BadConfig) => Err(Code::BadNumber),
            Err(OpenError::Memory) => Err(Code::NoMemory),
        }
    }

    /// Moves the next seat out, with the number of its actor: the outside actor first, then the cores from the greatest number on.
    ///
    /// # Errors
    ///
    /// `Absent` if none is left, else `NoMemory`. Then the house stays as it is.
    pub(crate) fn take(&mut self, alloc: Global) -> Result<(Box<Member>, u32), Code>
        ensures ok { IfOk result (λ it. TakesOut self.old it.0.value it.1 self.new) }
        ensures err { IfErr result (λ told. TakesNone self.old told self.new) }
    {
        match self.outside.take() {
            Some(outside) => self.box_outside(alloc, outside),
            None => self.take_core(alloc),
        }
    }

    /// Puts the outside actor into a box, or back.
    fn box_outside(&mut self, alloc: Global, outside: Outside) -> Result<(Box<Member>, u32), Code>
        requires { self.old.outside ≡ None }
        ensures ok { IfOk result (λ it. (it.0.value ≡ ItsOutside outside) × (it.1 ≡ self.old.cores) × (self.new ≡ self.old)) }
        ensures err { IfErr result (λ told. (told ≡ code.NoMemory) × (self.new ≡ record self.old { outside = Some outside })) }
    {
        match Box::new(alloc, Member::Outside(outside)) {
            Ok(seat) => Ok((seat, u32::from(self.cores))),
            Err(failed) => {
                self.outside = outside_of(failed.value);
                Err(Code::NoMemory)
            }
        }
    }

    /// Moves the last core out into a box.
    fn take_core(&mut self, alloc: Global) -> Result<(Box<Member>, u32), Code>
        ensures ok { IfOk result (λ it. TakesCore self.old it.0.value it.1 self.new) }
        ensures err { IfErr result (λ told. TakesNoCore self.old told self.new) }
    {
        let Some(core) = self.left.pop() else {
            return Err(Code::Absent);
        };
        match Box::new(alloc, Member::Core(core)) {
            Ok(seat) => Ok((seat, self.left.len() as u32)),
            Err(failed) => {
                if let Some(core) = core_of(failed.value) {
                    self.left.push_reserved(core);
                }
                Err(Code::NoMemory)
            }
        }
    }

    /// Whether the journal of this seat is the next, and the seat has come to its end.
    fn awaits(&self, seat: &Member) -> Code
        ensures { Awaits self.now seat.now result }
    {
        let next = self.journals.len();
        match seat {
            Member::Core(core) => {
                if usize::from(core.number().0) != next {
                    Code::NoActor
                } else {
                    drained(core)
                }
            }
            Member::Outside(_) => {
                if usize::from(self.cores) != next {
                    Code::NoActor
                } else {
                    Code::Ok
                }
            }
            _ => Code::Empty,
        }
    }

    /// Whether notes of the journals that were handed in were passed on, or of this seat.
    fn lacks(&self, seat: &Member) -> bool
        ensures { IsTrue result ↔ (IsTrue self.now.parted ⊎ HasPassed seat.now) }
    {
        if self.parted {
            return true;
        }
        has_passed(seat)
    }

    /// Takes the journal of a seat in, which is gone from then on.
    ///
    /// # Errors
    ///
    /// The seat comes back: `Empty` if it is none, `NoActor` if another's journal is the next, `NotDrained` of a core, else `NoMemory`.
    pub(crate) fn take_in(&mut self, seat: Box<Member>) -> Result<(), (Code, Box<Member>)>
        ensures ok { IfOk result (λ _. Awaits self.old seat.value code.Ok × TakesIn self.old seat.value self.new) }
        ensures err { IfErr result (λ back. (back.1.value ≡ seat.value) × (self.new ≡ self.old) × (((back.0 ≡ code.NoMemory) × Awaits self.old seat.value code.Ok) ⊎ ((back.0 ≢ code.Ok) × Awaits self.old seat.value back.0))) }
    {
        let code = self.awaits(&seat);
        if code != Code::Ok {
            return Err((code, seat));
        }
        let parted = self.lacks(&seat);
        if self.journals.reserve(1).is_err() {
            return Err((Code::NoMemory, seat));
        }
        self.journals
            .push_reserved(journal_of(Box::into_inner(seat)));
        self.parted = parted;
        Ok(())
    }

    /// Gives the journals up, if all were handed in.
    pub(crate) fn whole(&mut self, alloc: Global) -> Option<EndedHouse>
        ensures whole { IfSome result (λ ended. IsWhole self.old ended) }
        ensures missing { result ≡ None → (self.new ≡ self.old) × (length self.old.journals ≢ self.old.cores + 1) }
    {
        if self.journals.len() != usize::from(self.cores) + 1 {
            return None;
        }
        let journals = std::mem::replace(&mut self.journals, Vec::new(alloc));
        let assembly = Assembly::of_burst(self.cores, self.cap, self.burst, journals);
        Some(EndedHouse::of(assembly, self.parted))
    }
}

/// The outside actor, if it is this one.
fn outside_of(member: Member) -> Option<Outside>
    ensures { outside_in member ≡ result }
{
    match member {
        Member::Outside(outside) => Some(outside),
        Member::House(_house) => None,
        Member::Core(_core) => None,
        Member::Ended(_ended) => None,
        Member::Sleepers(_sleepers) => None,
    }
}

/// The core, if it is one.
fn core_of(member: Member) -> Option<Hosted>
    ensures { core_in member ≡ result }
{
    match member {
        Member::Core(core) => Some(core),
        Member::House(_house) => None,
        Member::Outside(_outside) => None,
        Member::Ended(_ended) => None,
        Member::Sleepers(_sleepers) => None,
    }
}

/// Whether notes of a seat were passed on.
fn has_passed(seat: &Member) -> bool
    ensures { IsTrue result ↔ HasPassed seat.now }
{
    match seat {
        Member::Core(core) => core.has_passed(),
        Member::Outside(outside) => outside.has_passed(),
        Member::House(_) | Member::Ended(_) | Member::Sleepers(_) => false,
    }
}

/// The notes of a seat that has come to its end.
fn journal_of(seat: Member) -> Journal<u64>
    requires { HasEndedSeat seat }
    ensures { IsJournalOf seat result }
{
    match seat {
        Member::Core(core) => {
            let Ok((journal, _ends)) = core.end() else {
                unreachable!()
            };
            journal.into_kept()
        }
        Member::Outside(outside) => {
            let (journal, _ends) = outside.end();
            journal.into_kept()
        }
        Member::House(_house) => unreachable!(),
        Member::Ended(_ended) => unreachable!(),
        Member::Sleepers(_sleepers) => unreachable!(),
    }
}

/// The house that was just opened, with room for the journals of its actors.
fn keep(
    alloc: Global,
    cores: u8,
    cap: u16,
    burst: u8,
    house: host_house::HostedHouse,
) -> Result<KeptHouse, Code>
    requires { length house.cores ≡ cores }
    ensures { IsKeptOf cores cap burst house result }
{
    let Ok(journals) = Vec::with_capacity(alloc, usize::from(cores) + 1) else {
        return Err(Code::NoMemory);
    };
    let host_house::HostedHouse {
        cores: left,
        outside,
    } = house;
    Ok(KeptHouse {
        cores,
        cap,
        burst,
        left,
        outside: Some(outside),
        journals,
        parted: false,
    })
}
