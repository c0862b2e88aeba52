ghost use Rattle.std.specs.Prelude.{◌≡◌};
ghost use Rattle.block_io2.specs.MediaOf.{media_for};

use disk_core::Disk;
use history::View;
use medium::Medium;

/// What is told of a view's medium (UEFI 2.10, 13.9.1: EFI_BLOCK_IO_MEDIA; which values: own profile).
#[derive(Clone, Copy, Debug, PartialEq, Eq)]
pub struct Media {
    /// The view's medium id.
    pub media_id: u32,
    /// Always true.
    pub removable: bool,
    /// Whether the medium with this id is in.
    pub present: bool,
    /// Whether the view is a partition.
    pub logical: bool,
    /// Whether the drive is protected.
    pub read_only: bool,
    /// Whether the drive keeps writes in a cache.
    pub write_caching: bool,
    /// Bytes of a block.
    pub block_size: u32,
    /// Always 0: a buffer may lie anywhere.
    pub io_align: u32,
    /// The LBA of the view's last block. 0 for a view that is shorter than a block.
    pub last_block: u64,
    /// Always 0.
    pub lowest_aligned_lba: u64,
    /// Blocks of a physical block. 0 for a partition.
    pub blocks_per_physical: u32,
}

/// What is told of the view's medium.
pub fn media_of<M: Medium>(disk: &Disk<M>, view: &View) -> Media
    ensures { result ≡ media_for disk.now.setup disk.now.entries view.now }
{
    let drive = disk.drive();
    let block_size = drive.size();
    let logical = view.index != 0;
    Media {
        media_id: view.media_id,
        removable: true,
        present: drive.present() && view.media_id == drive.media_id(),
        logical,
        read_only: drive.read_only(),
        write_caching: drive.cached(),
        block_size,
        io_align: 0,
        last_block: (view.length / u64::from(block_size)).saturating_sub(1),
        lowest_aligned_lba: 0,
        blocks_per_physical: if logical { 0 } else { drive.per() },
    }
}
