//! Cores beside their journals, just opened.

ghost use Rattle.std.specs.Prelude.{IfOk};
ghost use Rattle.model_world.specs.Cores.{AreOpened};

use actor_core::Recorded;
use base_jobs::Task;
use base_words::CoreNo;
use std::alloc::{AllocError, Allocator, Global};

/// A core of each number, for links of this capacity, turns of at most `burst` polls, and a journal of `room` notes. Cores take their
/// memory from `core_alloc`.
pub fn open_cores<J: Task<Out = u64>, A: Allocator + Clone>(
    alloc: Global,
    core_alloc: A,
    cores: u8,
    cap: u16,
    burst: u8,
    room: u32,
) -> Result<Vec<Recorded<J, A>>, AllocError>
    ensures { IfOk result (λ inside. AreOpened cores cap room burst inside.items) }
{
    let mut inside = Vec::with_capacity(alloc, cores as usize)?;
    for core in 0..cores {
        let opened = Recorded::open_burst(
            alloc,
            core_alloc.clone()?,
            CoreNo(core),
            cores,
            cap,
            burst,
            room,
        )?;
        inside.push_reserved(opened);
    }
    Ok(inside)
}
