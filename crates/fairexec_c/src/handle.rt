//! What C may keep: the address of a core, or of what belongs to a house.

ghost use Rattle.std.specs.Prelude.{◌≡◌, Option, Some, None};
ghost use Rattle.core_core.specs.State.{CoreView};
ghost use Rattle.fairexec_c.specs.Handles.{inside};
ghost use Rattle.host_calls.specs.declared.member.Member.{Member};
ghost use Rattle.host_core.specs.declared.job.HostJob.{HostJob};

use crate::hosted::Hosted;
use base_sealed::Loose;
use host_calls::Member;
use std::alloc::Global;
use std::marker::{Model, Send};

/// The address of a core, or null. Who has it, has the core.
#[repr(C)]
#[derive(Drop)]
pub struct Handle {
    at: *mut u8,
    alloc: Global,
    pub ghost value: { Option (CoreView HostJob) },
}

impl Model for Handle {
    ghost use Rattle.std.specs.Prelude.{Option};
    ghost use Rattle.core_core.specs.State.{CoreView};
    ghost use Rattle.fairexec_c.specs.Handles.{held};
    ghost use Rattle.host_core.specs.declared.job.HostJob.{HostJob};
    ghost use Rattle.fairexec_c.specs.contracts.hosted.Hosted.{the_row};

    ghost also_owns = { λ handle. held the_row handle.alloc handle.at handle.value };
}

// What it holds may go to another thread.
unsafe impl Send for Handle {}

/// The address of a house, of a seat or of timers, or null. Who has it, has what stands there.
#[repr(C)]
#[derive(Drop)]
pub struct SeatHandle {
    at: *mut u8,
    alloc: Global,
    pub ghost value: { Option Member },
}

impl Model for SeatHandle {
    ghost use Rattle.std.specs.Prelude.{Option};
    ghost use Rattle.fairexec_c.specs.Handles.{held};
    ghost use Rattle.host_calls.specs.declared.member.Member.{Member};
    ghost use Rattle.host_calls.specs.contracts.member.Member.{the_row};

    ghost also_owns = { λ seat. held the_row seat.alloc seat.at seat.value };
}

// What it holds may go to another thread.
unsafe impl Send for SeatHandle {}

impl Handle {
    /// Forgets the type of what stands at the address.
    fn seal(loose: Loose<Hosted, Global>) -> Handle
        ensures { result.value ≡ Some loose.value }
    {
        let Loose { at, alloc } = loose;
        Handle {
            at: at as *mut u8,
            alloc,
        }
    }

    /// The empty handle.
    fn vacant(alloc: Global) -> Handle
        ensures { result.value ≡ None }
    {
        Handle {
            at: std::ptr::null_mut(),
            alloc,
        }
    }

    /// Tells the type again, if the handle isn't empty.
    fn unseal(self) -> Option<Loose<Hosted, Global>>
        ensures { self.value ≡ inside (λ loose. loose.value) result }
    {
        let Handle { at, alloc } = self;
        if at.is_null() {
            None
        } else {
            Some(Loose {
                at: at as *mut Hosted,
                alloc,
            })
        }
    }

    /// Takes the core out, and leaves the handle empty.
    pub(crate) fn take(&mut self, alloc: Global) -> Option<Box<Hosted>>
        ensures empty { self.new.value ≡ None }
        ensures value { self.old.value ≡ inside (λ hosted. hosted.value) result }
    {
        match std::mem::replace(self, Handle::vacant(alloc)).unseal() {
            Some(loose) => Some(loose.into_box()),
            None => None,
        }
    }

    /// Puts a core into an empty handle.
    pub(crate) fn put(&mut self, hosted: Box<Hosted>)
        ensures { self.new.value ≡ Some hosted.value }
    {
        *self = Handle::seal(Loose::of(hosted));
    }
}

impl SeatHandle {
    /// Forgets the type of what stands at the address.
    fn seal(loose: Loose<Member, Global>) -> SeatHandle
        ensures { result.value ≡ Some loose.value }
    {
        let Loose { at, alloc } = loose;
        SeatHandle {
            at: at as *mut u8,
            alloc,
        }
    }

    /// The empty handle.
    fn vacant(alloc: Global) -> SeatHandle
        ensures { result.value ≡ None }
    {
        SeatHandle {
            at: std::ptr::null_mut(),
            alloc,
        }
    }

    /// Tells the type again, if the handle isn't empty.
    fn unseal(self) -> Option<Loose<Member, Global>>
        ensures { self.value ≡ inside (λ loose. loose.value) result }
    {
        let SeatHandle { at, alloc } = self;
        if at.is_null() {
            None
        } else {
            Some(Loose {
                at: at as *mut Member,
                alloc,
            })
        }
    }

    /// Takes out what stands there, and leaves the handle empty.
    pub(crate) fn take(&mut self, alloc: Global) -> Option<Box<Member>>
        ensures empty { self.new.value ≡ None }
        ensures value { self.old.value ≡ inside (λ member. member.value) result }
    {
        match std::mem::replace(self, SeatHandle::vacant(alloc)).unseal() {
            Some(loose) => Some(loose.into_box()),
            None => None,
        }
    }

    /// Puts it into an empty handle.
    pub(crate) fn put(&mut self, member: Box<Member>)
        ensures { self.new.value ≡ Some member.value }
    {
        *self = SeatHandle::seal(Loose::of(member));
    }
}
