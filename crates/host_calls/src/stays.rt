//! How seats leave a house and come back to it.

ghost use Rattle.std.specs.Prelude.{◌≡◌, ◌↔◌, None, IfErr, IfOk, IfSome, IsTrue};
ghost use Rattle.host_calls.specs.declared.member.Member.TheVariants.{Ended as ItsEnded};
ghost use Rattle.host_calls.specs.Ending.{EndsNoSeat, EndsSeat};
ghost use Rattle.host_calls.specs.Houses.{TakesNoSeat, TakesSeat};
ghost use Rattle.host_calls.specs.Members.{IsHouse};

use crate::code::Code;
use crate::member::Member;
use host_text::EndedHouse;
use std::alloc::Global;

impl Member {
    /// Whether it is a house that waits for journals.
    pub fn is_house(&self) -> bool
        ensures { IsTrue result ↔ IsHouse self.now }
    {
        match self {
            Member::House(_) => true,
            Member::Core(_) | Member::Outside(_) | Member::Ended(_) | Member::Sleepers(_) => false,
        }
    }

    /// Moves the next seat out of the house, with the number of its actor.
    ///
    /// # Errors
    ///
    /// `Empty` if this is no house, `Absent` if no seat is left, else `NoMemory`. Then nothing changes.
    pub fn take_seat(&mut self, alloc: Global) -> Result<(Box<Member>, u32), Code>
        ensures ok { IfOk result (λ it. TakesSeat self.old it.0.value it.1 self.new) }
        ensures err { IfErr result (λ told. TakesNoSeat self.old told self.new) }
    {
        match self {
            Member::House(house) => house.take(alloc),
            _ => Err(Code::Empty),
        }
    }

    /// Ends a seat, and takes its journal in.
    ///
    /// # Errors
    ///
    /// The seat comes back, and the house stays as it is: `Empty` if this is no house or that no seat, `NoActor` if another's journal is the
    /// next, `NotDrained` of a core, else `NoMemory`.
    pub fn end_seat(&mut self, alloc: Global, seat: Box<Member>) -> Result<(), (Code, Box<Member>)>
        ensures ok { IfOk result (λ _. EndsSeat self.old seat.value self.new) }
        ensures err { IfErr result (λ back. (back.1.value ≡ seat.value) × (self.new ≡ self.old) × EndsNoSeat self.old seat.value back.0) }
    {
        match self {
            Member::House(house) => {
                house.take_in(seat)?;
                let whole = house.whole(alloc);
                self.become_ended(whole);
                Ok(())
            }
            _ => Err((Code::Empty, seat)),
        }
    }

    /// Becomes these journals, if there are any.
    fn become_ended(&mut self, whole: Option<EndedHouse>)
        ensures ended { IfSome whole (λ ended. self.new ≡ ItsEnded ended) }
        ensures same { whole ≡ None → self.new ≡ self.old }
    {
        if let Some(ended) = whole {
            self.put(ended);
        }
    }

    /// Becomes these journals.
    fn put(&mut self, ended: EndedHouse)
        ensures { self.new ≡ ItsEnded ended }
    {
        *self = Member::Ended(ended);
    }
}
