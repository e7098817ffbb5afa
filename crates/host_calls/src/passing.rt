//! How an actor hands on the notes that its journal keeps.

ghost use Rattle.std.specs.Prelude.{◌≡◌};
ghost use Rattle.host_calls.specs.Passing.{PassesOn, PassesTold, code_of_passed, count_passed};

use crate::code::Code;
use crate::member::Member;
use host_text::PassError;
use std::alloc::Global;

impl Member {
    /// Copies the text of the notes that the journal of an actor keeps, and tells how many bytes it has. The journal keeps none of them then. If
    /// there is room for fewer bytes, it tells how many are wanted, and nothing else changes.
    pub fn pass_on(&mut self, alloc: Global, bytes: &mut [u8], count: &mut u64) -> Code
        ensures { PassesTold self.old bytes.old count.old result self.new bytes.new count.new }
    {
        if !self.is_actor() {
            return Code::Empty;
        }
        tell_passed(self.pass_part(alloc, bytes), count)
    }

    /// Copies that text. Nobody but an actor has any.
    fn pass_part(&mut self, alloc: Global, bytes: &mut [u8]) -> Result<u64, PassError>
        ensures { PassesOn self.old bytes.old result self.new bytes.new }
    {
        match self {
            Member::Core(core) => core.pass_on(alloc, bytes),
            Member::Outside(outside) => outside.pass_on(alloc, bytes),
            _ => Err(PassError::Memory),
        }
    }
}

/// Tells how many bytes were copied, or are wanted, or why none were copied.
fn tell_passed(passed: Result<u64, PassError>, count: &mut u64) -> Code
    ensures code { result ≡ code_of_passed passed }
    ensures count { count.new ≡ count_passed passed count.old }
{
    match passed {
        Ok(bytes) => {
            *count = bytes;
            Code::Ok
        }
        Err(PassError::Short(wanted)) => {
            *count = wanted;
            Code::Short
        }
        Err(PassError::Memory) => Code::NoMemory,
    }
}
