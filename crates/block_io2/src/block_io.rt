ghost use Rattle.std.specs.Prelude.{◌^◌, ◌≤◌, vec_len};
ghost use Rattle.disk_core.specs.declared.answers.Ask.{Ask};
ghost use Rattle.disk_core.specs.Calls.{SubmitSays};
ghost use Rattle.disk_core.specs.Turns.{IsIdle};
ghost use Rattle.disk_io2.specs.Blocking.{BlockingSays};

use disk_core::{Ask, Disk, Refused, Token};
use disk_io2::carry_out;
use history::View;
use medium::Medium;

/// Asks to read whole blocks into the buffer, of at most 16 MiB, from block `lba` of the view on (UEFI 2.10, 13.10:
/// ReadBlocksEx).
pub fn read_blocks_ex<M: Medium>(
    disk: &mut Disk<M>,
    tag: u32,
    view: &View,
    media_id: u32,
    lba: u64,
    buffer: Vec<u8>,
) -> Result<Token, Refused>
    requires { vec_len buffer ≤ 2 ^ 24 }
    ensures { SubmitSays disk.old tag view.now media_id (Ask.ReadBlocks lba buffer) result disk.new }
{
    disk.submit(tag, view, media_id, Ask::ReadBlocks { lba, buffer })
}

/// Asks to write the buffer, of at most 16 MiB, as whole blocks from block `lba` of the view on (UEFI 2.10, 13.10:
/// WriteBlocksEx).
pub fn write_blocks_ex<M: Medium>(
    disk: &mut Disk<M>,
    tag: u32,
    view: &View,
    media_id: u32,
    lba: u64,
    buffer: Vec<u8>,
) -> Result<Token, Refused>
    requires { vec_len buffer ≤ 2 ^ 24 }
    ensures { SubmitSays disk.old tag view.now media_id (Ask.WriteBlocks lba buffer) result disk.new }
{
    disk.submit(tag, view, media_id, Ask::WriteBlocks { lba, buffer })
}

/// Asks to make whole blocks zero from block `lba` of the view on: `length` bytes, at most 16 MiB (own profile, after UEFI
/// 2.10, 13.12 in outline).
pub fn erase_blocks_ex<M: Medium>(
    disk: &mut Disk<M>,
    tag: u32,
    view: &View,
    media_id: u32,
    lba: u64,
    length: u64,
) -> Result<Token, Refused>
    requires { length ≤ 2 ^ 24 }
    ensures { SubmitSays disk.old tag view.now media_id (Ask.EraseBlocks lba length) result disk.new }
{
    disk.submit(tag, view, media_id, Ask::EraseBlocks { lba, length })
}

/// Asks to make stay what was written to the medium of the view (UEFI 2.10, 13.10: FlushBlocksEx).
pub fn flush_blocks_ex<M: Medium>(
    disk: &mut Disk<M>,
    tag: u32,
    view: &View,
) -> Result<Token, Refused>
    ensures { SubmitSays disk.old tag view.now view.now.media_id Ask.Flush result disk.new }
{
    disk.submit(tag, view, view.media_id, Ask::Flush)
}

/// Reads whole blocks into the buffer, of at most 16 MiB, from block `lba` of the view on (UEFI 2.10, 13.9: ReadBlocks).
/// See `disk_io2::carry_out`.
pub fn read_blocks<M: Medium>(
    disk: &mut Disk<M>,
    tag: u32,
    view: &View,
    media_id: u32,
    lba: u64,
    buffer: Vec<u8>,
) -> Result<Vec<u8>, Refused>
    requires most { vec_len buffer ≤ 2 ^ 24 }
    requires idle { IsIdle disk.old.gates }
    ensures idle { IsIdle disk.new.gates }
    ensures says { BlockingSays disk.old tag view.now media_id (Ask.ReadBlocks lba buffer) result
        disk.new }
{
    carry_out(disk, tag, view, media_id, Ask::ReadBlocks { lba, buffer })
}

/// Writes the buffer, of at most 16 MiB, as whole blocks from block `lba` of the view on (UEFI 2.10, 13.9: WriteBlocks).
/// See `disk_io2::carry_out`.
pub fn write_blocks<M: Medium>(
    disk: &mut Disk<M>,
    tag: u32,
    view: &View,
    media_id: u32,
    lba: u64,
    buffer: Vec<u8>,
) -> Result<Vec<u8>, Refused>
    requires most { vec_len buffer ≤ 2 ^ 24 }
    requires idle { IsIdle disk.old.gates }
    ensures idle { IsIdle disk.new.gates }
    ensures says { BlockingSays disk.old tag view.now media_id (Ask.WriteBlocks lba buffer) result
        disk.new }
{
    carry_out(disk, tag, view, media_id, Ask::WriteBlocks { lba, buffer })
}

/// Makes whole blocks zero from block `lba` of the view on: `length` bytes, at most 16 MiB (own profile, after UEFI 2.10,
/// 13.12 in outline). See `disk_io2::carry_out`.
pub fn erase_blocks<M: Medium>(
    disk: &mut Disk<M>,
    tag: u32,
    view: &View,
    media_id: u32,
    lba: u64,
    length: u64,
) -> Result<Vec<u8>, Refused>
    requires most { length ≤ 2 ^ 24 }
    requires idle { IsIdle disk.old.gates }
    ensures idle { IsIdle disk.new.gates }
    ensures says { BlockingSays disk.old tag view.now media_id (Ask.EraseBlocks lba length) result
        disk.new }
{
    carry_out(disk, tag, view, media_id, Ask::EraseBlocks { lba, length })
}

/// Makes stay what was written to the medium of the view (UEFI 2.10, 13.9: FlushBlocks). See `disk_io2::carry_out`.
pub fn flush_blocks<M: Medium>(
    disk: &mut Disk<M>,
    tag: u32,
    view: &View,
) -> Result<Vec<u8>, Refused>
    requires idle { IsIdle disk.old.gates }
    ensures idle { IsIdle disk.new.gates }
    ensures says { BlockingSays disk.old tag view.now view.now.media_id Ask.Flush result
        disk.new }
{
    carry_out(disk, tag, view, view.media_id, Ask::Flush)
}
