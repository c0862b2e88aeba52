ghost use Rattle.std.specs.Prelude.{◌≡◌, ℕ, ◌+◌, ◌-◌, ◌*◌, ◌<◌, ◌≤◌, length, IfOk};
ghost use Rattle.disk_core.specs.Moves.{IsNewCore};

use crate::parts::Core;
use block_gate::Gates;
use disk_split::Geometry;
use drive::Drive;
use history::History;
use medium::Medium;
use std::alloc::{AllocError, Global};
use subtask_queue::Queue;
use token_table::Tokens;

/// The most blocks of one command (own profile).
const COMMAND_BLOCKS: usize = 64;

/// The parts of a new disk, beside its drive. The error is want of memory.
pub fn new_core<M: Medium>(alloc: Global, drive: &Drive<M>, sets: u32) -> Result<Core, AllocError>
    requires some { 0 < sets }
    requires few { sets ≤ 64 }
    ensures { IfOk result
        (λ core. IsNewCore core drive.now.protected drive.now.size drive.now.per
        (length drive.now.media) sets) }
{
    let size = drive.size();
    let per = drive.per();
    // Each ejection, and the insertion of each spare.
    let owed = 2 * u64::from(drive.count()) - 1;
    Ok(Core {
        protected_at_first: drive.read_only(),
        blocks: Geometry { size, per },
        history: History::make(alloc, owed)?,
        owed,
        accepted: 0,
        fetched: 0,
        tokens: Tokens::make(alloc),
        queue: Queue::make(alloc),
        gates: Gates::make(alloc, sets, size * per)?,
        holders: Vec::with_capacity(alloc, sets as usize)?,
        group: vec![in alloc; 0; (size * per) as usize]?,
        zeros: vec![in alloc; 0; COMMAND_BLOCKS * size as usize]?,
    })
}
