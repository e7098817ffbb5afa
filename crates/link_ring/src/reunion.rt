//! How all links of a house end.

ghost use Rattle.std.specs.Prelude.{◌+◌, ◌<◌, ◌≤◌};
ghost use Rattle.link_ends.specs.Fits.{Fits};
ghost use Rattle.link_ring.specs.Grid.{IsGrid, IsClosing, EndsLink, EndsRow, AreReunited};

use crate::accounts::reunite;
use crate::ends::Ends;
use base_jobs::Task;

// Ends the link from a sender to a core, whose ends are the last ones of both.
fn reunite_last<J: Task>(all: &mut Vec<Ends<J>>, cores: u8, sender: usize, core: usize)
    requires sender { sender ≤ cores }
    requires core { core < cores }
    requires closing { IsClosing cores sender (core + 1) all.old.items }
    ensures { EndsLink (Fits J.meaning) cores sender core all.old.items all.new.items }
{
    let Some(out) = all[sender].pop_out() else {
        unreachable!()
    };
    let Some(inward) = all[core].pop_in() else {
        unreachable!()
    };
    reunite(out, inward);
}

// Ends the links from a sender to all cores, the last one first.
fn reunite_row<J: Task>(all: &mut Vec<Ends<J>>, cores: u8, sender: usize)
    requires sender { sender ≤ cores }
    requires closing { IsClosing cores (sender + 1) 0 all.old.items }
    ensures { EndsRow (Fits J.meaning) cores sender all.old.items all.new.items }
{
    for step in 0..cores as usize {
        reunite_last(all, cores, sender, cores as usize - 1 - step);
    }
}

/// Ends all links of a house. The orders and outcomes that are still in their slots are dropped.
///
/// For each sender and each core both ends are of one link, however each actor used its own: what was taken is the beginning of what was
/// sent, and what was got is the beginning of what was given. The body asks for no memory; no clause says so.
pub fn reunite_all<J: Task>(all: Vec<Ends<J>>, cores: u8)
    requires { IsGrid cores all.items }
    ensures { AreReunited (Fits J.meaning) cores all.items }
{
    let mut all = all;
    for step in 0..cores as usize + 1 {
        reunite_row(&mut all, cores, cores as usize - step);
    }
}
