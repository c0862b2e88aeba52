ghost use Rattle.std.specs.Prelude.{◌≡◌, ℕ, ◌+◌, ◌*◌, ◌<◌, ◌≤◌, List, length, OnOk};
ghost use Rattle.medium.specs.Device.{Device, IsShaped, IsTransfer, IsRead, IsWrite, IsSync, StayPrepared};

use crate::BlockFailed;
use std::alloc::{AllocError, Global};

/// A block device with its medium (UEFI 2.10, 13.9; failures, cache and counts: own profile).
///
/// A transfer is 1 to 64 whole blocks, all on the medium. The device's faults rise where a command fails, and stay where it is done.
pub trait Medium {
    /// What the device is and what its medium holds.
    ghost device: { Self → Device };

    /// A write of this block needs no more memory.
    ghost prepared: { Self → ℕ → Type 0 };

    /// The number of blocks of the medium.
    fn blocks(&self) -> u64
        ensures { result ≡ (device self.now).blocks };

    /// The size of a block in bytes.
    fn size(&self) -> u32
        ensures { result ≡ (device self.now).size };

    /// Makes `count` blocks from `lba` on ready to be written. It is no command. The error is want of memory.
    fn prepare(&mut self, alloc: Global, lba: u64, count: u64) -> Result<(), AllocError>
        requires { lba + count ≤ (device self.old).blocks }
        ensures device { device self.new ≡ device self.old }
        ensures ready { OnOk result ((b : ℕ) → lba ≤ b → b < lba + count → prepared self.new b) }
        ensures stay { StayPrepared (prepared self.old) (prepared self.new) };

    /// Reads blocks from `lba` on. After a failure `out` is as it was.
    fn read_blocks(&mut self, lba: u64, out: &mut [u8]) -> Result<(), BlockFailed>
        requires { IsTransfer (device self.old) lba (length out.old) }
        ensures read { IsRead (device self.old) lba result (device self.new) out.old out.new }
        ensures stay { StayPrepared (prepared self.old) (prepared self.new) };

    /// Writes blocks from `lba` on. After a failure the first `done` blocks are written, and not all.
    fn write_blocks(&mut self, lba: u64, bytes: &[u8]) -> Result<(), BlockFailed>
        requires transfer { IsTransfer (device self.old) lba (length bytes.now) }
        requires ready { (b : ℕ) → lba ≤ b → b * (device self.old).size < lba * (device self.old).size + length bytes.now → prepared self.old b }
        ensures written { IsWrite (device self.old) lba bytes.now result (device self.new) }
        ensures stay { StayPrepared (prepared self.old) (prepared self.new) };

    /// Makes what was written stay.
    fn sync(&mut self) -> Result<(), BlockFailed>
        ensures synced { IsSync (device self.old) result (device self.new) }
        ensures stay { StayPrepared (prepared self.old) (prepared self.new) };

    /// The block size is one of four, the blocks fit 64 bits in bytes, and told bytes have that length.
    ghost shaped: { (m : Self) → IsShaped (device m) };

    /// A block is prepared in one way.
    ghost prepared_once: { (m : Self) (b : ℕ) → IsProp (prepared m b) };
}
