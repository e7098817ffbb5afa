//! Laws over the definitions alone.

ghost use Rattle.link_ring.specs.Laws.{GridIsKept};

use base_jobs::Task;

pub fn grid_is_kept<J: Task>()
    ensures { GridIsKept J J.Out }
{}
