//! How an actor rests on its own bell.

ghost use Rattle.std.specs.Prelude.{◌≡◌, IfSome, is_none};

use crate::bell::{LastLook, OwnBell, Slept};
use std::sync::Wait;

/// That an `L` parked on this bell, behind a look that found nothing, and woke. Only `OwnBell::rest` makes one.
#[derive(Drop)]
pub struct Woken<'a, L> {
    own: &'a OwnBell<L>,
    slept: Slept,
}

impl<L: LastLook> OwnBell<L> {
    /// Lies down, looks once more at everything, and parks until the bell rings if there was nothing. It doesn't park if the bell has rung
    /// since it lay down. Where `last` tells a limit behind that look, it wakes by itself, at the limit or a little earlier or later.
    pub fn rest<'a, R: Wait>(
        &'a self,
        rt: &R,
        last: &mut L,
        local: &mut L::Local,
    ) -> Option<Woken<'a, L>>
        requires { L.IsReady last.old }
        ensures looks { L.Looks last.old (is_none result) last.new }
        ensures bell { IfSome result (λ woken. woken.own.now ≡ self.now) }
    {
        match self.lie_down().look(last, local) {
            Some(quiet) => Some(Woken {
                own: self,
                slept: quiet.sleep(rt),
            }),
            None => None,
        }
    }
}
