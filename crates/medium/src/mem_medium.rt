ghost use Rattle.std.specs.Prelude.{◌≡◌, ℕ, ◌+◌, ◌*◌, ◌^◌, ◌/◌, ◌%◌, ◌<◌, ◌≤◌, length, take, drop, vec_len, Some, IfOk, IsSome};
ghost use Rattle.medium.specs.Blocks.{block_over, overlay};
ghost use Rattle.medium.specs.BlockMap.{held_block, HasPlaceFor};
ghost use Rattle.medium.specs.Device.{IsBlockSize};
ghost use Rattle.medium.specs.Memory.{memory_device};

use crate::block_map::BlockMap;
use crate::{BlockFailed, Medium};
use byte_lists::patch_into;
use std::alloc::{AllocError, Global};

/// A medium in memory. It tells its bytes, has no cache and never fails (own profile).
///
/// It keeps the bytes with which it begins, and beside them the blocks that were written.
#[derive(Drop)]
pub struct MemMedium {
    opening: Vec<u8>,
    changed: BlockMap,
    size: u32,
    blocks: u64,
    calls: u64,
    ghost one_of_four: { IsBlockSize size },
    ghost some: { 0 < blocks },
    ghost fits: { blocks * size < 2 ^ 64 },
    ghost opening_length: { length opening.items ≡ blocks * size },
    ghost changed_size: { changed.size ≡ size },
    ghost inside: { (b : ℕ) → IsSome (held_block changed b) → b < blocks },
    ghost length: { length (overlay (held_block changed) size blocks opening.items) ≡ blocks * size },
}

impl MemMedium {
    /// A medium that begins with these bytes, in blocks of `size` bytes. The error is want of memory.
    pub fn make(alloc: Global, bytes: Vec<u8>, size: u32) -> Result<MemMedium, AllocError>
        requires size { IsBlockSize size }
        requires some { 0 < vec_len bytes }
        requires whole { vec_len bytes % size ≡ 0 }
        ensures { IfOk result (λ m. ⟦<MemMedium as Medium>⟧.device m ≡ memory_device bytes.items bytes.items size (vec_len bytes / size) 0) }
    {
        let blocks = bytes.len() as u64 / u64::from(size);
        Ok(MemMedium {
            opening: bytes,
            changed: BlockMap::new(alloc, size),
            size,
            blocks,
            calls: 0,
        })
    }

    /// The bytes as they are now. The error is want of memory, and the medium is then gone.
    pub fn into_bytes(self) -> Result<Vec<u8>, AllocError>
        ensures { IfOk result (λ bytes. Some bytes.items ≡ (⟦<MemMedium as Medium>⟧.device self).now) }
    {
        let MemMedium {
            mut opening,
            changed,
            ..
        } = self;
        changed.put_into(&mut opening);
        Ok(opening)
    }

    // A block as it is now.
    fn block(&self, block: u64) -> &[u8]
        requires { block < self.now.blocks }
        ensures value { result.now ≡ block_over (held_block self.now.changed) self.now.size self.now.opening.items block }
        ensures long { length result.now ≡ self.now.size }
    {
        match self.changed.get(block) {
            Some(bytes) => bytes,
            None => {
                let at = block as usize * self.size as usize;
                &self.opening[at..at + self.size as usize]
            }
        }
    }

    // Fills `out` with the blocks from `lba` on.
    fn copy_blocks(&self, lba: u64, count: usize, out: &mut [u8])
        requires long { length out.old ≡ count * self.now.size }
        requires fits { lba + count ≤ self.now.blocks }
        ensures { out.new ≡ take (length out.old) (drop (lba * self.now.size) (overlay (held_block self.now.changed) self.now.size self.now.blocks self.now.opening.items)) }
    {
        for i in 0..count {
            patch_into(out, i * self.size as usize, self.block(lba + i as u64));
        }
    }
}

impl Medium for MemMedium {
    ghost device = { λ m. memory_device m.opening.items (overlay (held_block m.changed) m.size m.blocks m.opening.items) m.size m.blocks m.calls };

    ghost prepared = { λ m b. HasPlaceFor m.changed b };

    fn blocks(&self) -> u64 {
        self.blocks
    }

    fn size(&self) -> u32 {
        self.size
    }

    fn prepare(&mut self, _alloc: Global, lba: u64, count: u64) -> Result<(), AllocError> {
        self.changed.make_places(lba, count)
    }

    fn read_blocks(&mut self, lba: u64, out: &mut [u8]) -> Result<(), BlockFailed> {
        self.calls = self.calls.saturating_add(1);
        self.copy_blocks(lba, out.len() / self.size as usize, out);
        Ok(())
    }

    fn write_blocks(&mut self, lba: u64, bytes: &[u8]) -> Result<(), BlockFailed> {
        self.calls = self.calls.saturating_add(1);
        let count = bytes.len() / self.size as usize;
        self.changed.hold_all(lba, count, bytes);
        Ok(())
    }

    fn sync(&mut self) -> Result<(), BlockFailed> {
        self.calls = self.calls.saturating_add(1);
        Ok(())
    }

    ghost use Rattle.medium.specs.Memory.{memory_shaped};

    ghost shaped = { λ m. memory_shaped m.opening.items (overlay (held_block m.changed) m.size m.blocks m.opening.items) m.size m.blocks m.calls m.one_of_four m.some m.fits m.opening_length m.length };

    ghost use Rattle.medium.specs.BlockMap.{has_place-once};

    ghost prepared_once = { λ m b. has_place-once m.changed b };
}
