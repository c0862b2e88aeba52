ghost use Rattle.std.specs.Prelude.{◌^◌, ◌≤◌, vec_len};
ghost use Rattle.history.specs.declared.entry.Entry.{Entry};
ghost use Rattle.disk_core.specs.declared.answers.Ask.{Ask};
ghost use Rattle.disk_core.specs.Calls.{SubmitSays, EndSays};
ghost use Rattle.disk_core.specs.Turns.{IsIdle};
ghost use Rattle.disk_io2.specs.Blocking.{BlockingSays};

use crate::blocking::carry_out;
use disk_core::{Ask, Disk, Refused, Token};
use history::View;
use medium::Medium;

/// Asks to read into the buffer, of at most 16 MiB, from byte `at` of the view on (UEFI 2.10, 13.8: ReadDiskEx).
pub fn read_disk_ex<M: Medium>(
    disk: &mut Disk<M>,
    tag: u32,
    view: &View,
    media_id: u32,
    at: u64,
    buffer: Vec<u8>,
) -> Result<Token, Refused>
    requires { vec_len buffer ≤ 2 ^ 24 }
    ensures { SubmitSays disk.old tag view.now media_id (Ask.Read at buffer) result disk.new }
{
    disk.submit(tag, view, media_id, Ask::Read { at, buffer })
}

/// Asks to write the buffer, of at most 16 MiB, from byte `at` of the view on (UEFI 2.10, 13.8: WriteDiskEx).
pub fn write_disk_ex<M: Medium>(
    disk: &mut Disk<M>,
    tag: u32,
    view: &View,
    media_id: u32,
    at: u64,
    buffer: Vec<u8>,
) -> Result<Token, Refused>
    requires { vec_len buffer ≤ 2 ^ 24 }
    ensures { SubmitSays disk.old tag view.now media_id (Ask.Write at buffer) result disk.new }
{
    disk.submit(tag, view, media_id, Ask::Write { at, buffer })
}

/// Asks to make stay what was written to the medium of the view (UEFI 2.10, 13.8: FlushDiskEx).
pub fn flush_disk_ex<M: Medium>(disk: &mut Disk<M>, tag: u32, view: &View) -> Result<Token, Refused>
    ensures { SubmitSays disk.old tag view.now view.now.media_id Ask.Flush result disk.new }
{
    disk.submit(tag, view, view.media_id, Ask::Flush)
}

/// Ends the outstanding requests of the view with Aborted, and answers their number (UEFI 2.10, 13.8: Cancel).
pub fn cancel<M: Medium>(disk: &mut Disk<M>, tag: u32, view: &View) -> u64
    ensures { EndSays disk.old (Entry.Cancel tag view.now) result disk.new }
{
    disk.cancel(tag, view)
}

/// Reads into the buffer, of at most 16 MiB, from byte `at` of the view on (UEFI 2.10, 13.7: ReadDisk). See `carry_out`.
pub fn read_disk<M: Medium>(
    disk: &mut Disk<M>,
    tag: u32,
    view: &View,
    media_id: u32,
    at: u64,
    buffer: Vec<u8>,
) -> Result<Vec<u8>, Refused>
    requires most { vec_len buffer ≤ 2 ^ 24 }
    requires idle { IsIdle disk.old.gates }
    ensures idle { IsIdle disk.new.gates }
    ensures says { BlockingSays disk.old tag view.now media_id (Ask.Read at buffer) result disk.new }
{
    carry_out(disk, tag, view, media_id, Ask::Read { at, buffer })
}

/// Writes the buffer, of at most 16 MiB, from byte `at` of the view on (UEFI 2.10, 13.7: WriteDisk). See `carry_out`.
pub fn write_disk<M: Medium>(
    disk: &mut Disk<M>,
    tag: u32,
    view: &View,
    media_id: u32,
    at: u64,
    buffer: Vec<u8>,
) -> Result<Vec<u8>, Refused>
    requires most { vec_len buffer ≤ 2 ^ 24 }
    requires idle { IsIdle disk.old.gates }
    ensures idle { IsIdle disk.new.gates }
    ensures says { BlockingSays disk.old tag view.now media_id (Ask.Write at buffer) result disk.new }
{
    carry_out(disk, tag, view, media_id, Ask::Write { at, buffer })
}

/// Makes stay what was written to the medium of the view (UEFI 2.10, 13.8). See `carry_out`.
pub fn flush_disk<M: Medium>(disk: &mut Disk<M>, tag: u32, view: &View) -> Result<Vec<u8>, Refused>
    requires idle { IsIdle disk.old.gates }
    ensures idle { IsIdle disk.new.gates }
    ensures says { BlockingSays disk.old tag view.now view.now.media_id Ask.Flush result disk.new }
{
    carry_out(disk, tag, view, view.media_id, Ask::Flush)
}
