ghost use Rattle.std.specs.Prelude.{◌≡◌, nat_lt};
ghost use Rattle.block_gate.specs.Gates.{is_block_held};
ghost use Rattle.subtask_queue.specs.Subs.{token_of, block_of, may_run};

use block_gate::Gates;

/// A unit of a request that is not finished. A block is an LBA of the medium.
#[derive(Clone, Copy, Debug, PartialEq, Eq)]
pub enum Sub {
    /// Some bytes of a group, whose first block is `block`: `count` bytes from byte `from` of the group on.
    Part {
        token: u64,
        block: u64,
        from: u32,
        count: u32,
        /// Whether it changes bytes of the medium: of a write or an erase.
        write: bool,
    },
    /// 1 to 64 whole blocks.
    Run {
        token: u64,
        block: u64,
        count: u32,
        /// Whether it changes bytes of the medium: of a write or an erase.
        write: bool,
    },
    /// The sync of a flush.
    Sync {
        token: u64,
    },
}

impl Sub {
    /// The token of its request.
    pub fn token(&self) -> u64
        ensures { result ≡ token_of self.now }
    {
        match self {
            Sub::Part { token, .. } | Sub::Run { token, .. } | Sub::Sync { token } => *token,
        }
    }

    /// Its first block, and 0 for a sync.
    pub fn block(&self) -> u64
        ensures { result ≡ block_of self.now }
    {
        match self {
            Sub::Part { block, .. } | Sub::Run { block, .. } => *block,
            Sub::Sync { .. } => 0,
        }
    }

    #[tactic(auto, unfolding(crate::specs::Subs::may_run))]
    /// Whether it may run now: it reads or is a sync; or it writes whole blocks of which none is held; or it writes a part,
    /// whose block is not held, and a buffer set is free.
    pub fn may_run(&self, gates: &Gates) -> bool
        ensures { result ≡ may_run (is_block_held gates.now.held) (nat_lt 0 gates.now.free) self.now }
    {
        match self {
            Sub::Part { block, write, .. } => {
                !*write || (!gates.is_held(*block) && gates.free() > 0)
            }
            Sub::Run {
                block,
                count,
                write,
                ..
            } => !*write || !gates.is_any_held(*block, *count),
            Sub::Sync { .. } => true,
        }
    }
}
