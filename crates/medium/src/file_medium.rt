ghost use Rattle.std.specs.Prelude.{◌≡◌, ℕ, ◌+◌, ◌*◌, ◌^◌, ◌<◌, ◌≤◌, length, ⊤, Ok, Err, IfOk, OnOk, OnErr};
ghost use Rattle.std.specs.Bool.{OnTrue, OnFalse};
ghost use Rattle.medium.specs.Counts.{capped_sum};
ghost use Rattle.medium.specs.Device.{IsBlockSize, failures};
ghost use Rattle.medium.specs.Files.{file_device, has_all, read_answer, write_answer, sync_answer};

use crate::{BlockFailed, Medium};
use std::alloc::{AllocError, Global};
use std::fs::OpenFile;
use std::io;
use std::os::unix::fs::FileExt;

/// The most bytes of one transfer: 64 blocks of 4,096 bytes.
const MOST_BYTES: usize = 64 * 4096;

/// A medium over an open file, by positional reads and writes of whole blocks. It tells nothing, has no cache and counts
/// its faults (own profile).
#[derive(Drop)]
pub struct FileMedium<F> {
    file: F,
    blocks: u64,
    size: u32,
    faults: u64,
    calls: u64,
    failed: u64,
    ghost one_of_four: { IsBlockSize size },
    ghost some: { 0 < blocks },
    ghost fits: { blocks * size < 2 ^ 64 },
}

impl<F: FileExt + OpenFile> FileMedium<F> {
    /// The first `blocks` blocks of a file that is open for reading and writing.
    pub fn make(file: F, blocks: u64, size: u32) -> FileMedium<F>
        requires size { IsBlockSize size }
        requires some { 0 < blocks }
        requires fits { blocks * size < 2 ^ 64 }
        ensures { ⟦<FileMedium<F> as Medium>⟧.device result ≡ file_device size blocks 0 0 0 }
    {
        FileMedium {
            file,
            blocks,
            size,
            faults: 0,
            calls: 0,
            failed: 0,
        }
    }

    // Counts a command with so many failures.
    fn count(&mut self, failures: u64)
        ensures { self.new ≡ record self.old { calls = capped_sum self.old.calls 1; failed = capped_sum self.old.failed failures } }
    {
        self.calls = self.calls.saturating_add(1);
        self.failed = self.failed.saturating_add(failures);
    }

    // A command was done.
    fn done(&mut self) -> Result<(), BlockFailed>
        ensures answer { result ≡ Ok _ }
        ensures counted { self.new ≡ record self.old { calls = capped_sum self.old.calls 1; failed = capped_sum self.old.failed 0 } }
    {
        self.count(0);
        Ok(())
    }

    // A command failed after so many blocks, which is a fault.
    fn fail(&mut self, done: u32) -> Result<(), BlockFailed>
        ensures answer { result ≡ Err (record { done = done }) }
        ensures counted { self.new ≡ record self.old { faults = capped_sum self.old.faults 1; calls = capped_sum self.old.calls 1; failed = capped_sum self.old.failed 1 } }
        ensures later { self.old.faults ≤ self.new.faults }
    {
        self.faults = self.faults.saturating_add(1);
        self.count(1);
        Err(BlockFailed { done })
    }

    // A read brought all its bytes, or failed.
    fn end_read(&mut self, all: bool) -> Result<(), BlockFailed>
        ensures answer { result ≡ read_answer all }
        ensures counted { self.new ≡ record self.old { faults = self.new.faults; calls = capped_sum self.old.calls 1; failed = capped_sum self.old.failed (failures result) } }
        ensures quiet { OnOk result (self.new.faults ≡ self.old.faults) }
        ensures cause { OnErr result (self.new.faults ≡ capped_sum self.old.faults 1) }
        ensures later { self.old.faults ≤ self.new.faults }
    {
        if all { self.done() } else { self.fail(0) }
    }

    // A write of so many bytes was answered so by the system.
    fn end_write(&mut self, answer: io::Result<usize>, wanted: usize) -> Result<(), BlockFailed>
        requires { IfOk answer (λ count. (count ≤ wanted) × (wanted < 2 ^ 32)) }
        ensures answer { result ≡ write_answer self.old.size answer wanted }
        ensures counted { self.new ≡ record self.old { faults = self.new.faults; calls = capped_sum self.old.calls 1; failed = capped_sum self.old.failed (failures result) } }
        ensures quiet { OnOk result (self.new.faults ≡ self.old.faults) }
        ensures cause { OnErr result (self.new.faults ≡ capped_sum self.old.faults 1) }
        ensures later { self.old.faults ≤ self.new.faults }
    {
        match answer {
            Ok(count) => {
                if count == wanted {
                    self.done()
                } else {
                    self.fail((count / self.size as usize) as u32)
                }
            }
            Err(_) => self.fail(0),
        }
    }

    // A write-through was answered so by the system.
    fn end_sync(&mut self, answer: io::Result<()>) -> Result<(), BlockFailed>
        ensures answer { result ≡ sync_answer answer }
        ensures counted { self.new ≡ record self.old { faults = self.new.faults; calls = capped_sum self.old.calls 1; failed = capped_sum self.old.failed (failures result) } }
        ensures quiet { OnOk result (self.new.faults ≡ self.old.faults) }
        ensures cause { OnErr result (self.new.faults ≡ capped_sum self.old.faults 1) }
        ensures later { self.old.faults ≤ self.new.faults }
    {
        match answer {
            Ok(()) => self.done(),
            Err(_) => self.fail(0),
        }
    }
}

/// Takes what a read brought, where that is all that was asked for. Else `out` stays as it was.
fn take_read(answer: io::Result<usize>, part: &[u8], out: &mut [u8]) -> bool
    requires { length part.now ≡ length out.old }
    ensures all { result ≡ has_all answer (length out.old) }
    ensures taken { OnTrue result (out.new ≡ part.now) }
    ensures left { OnFalse result (out.new ≡ out.old) }
{
    match answer {
        Ok(count) => {
            if count == out.len() {
                out.copy_from_slice(part);
                true
            } else {
                false
            }
        }
        Err(_) => false,
    }
}

/// Reads at a place of a file by way of room for `N` bytes. Where less comes than was asked for, `out` stays as it was.
fn read_whole<F: FileExt, const N: usize>(file: &F, at: u64, out: &mut [u8]) -> bool
    requires enough { length out.old ≤ N }
    requires small { N < 2 ^ 63 }
    ensures { OnFalse result (out.new ≡ out.old) }
{
    let mut room = [0; N];
    let part = &mut room[..out.len()];
    let answer = file.read_at(part, at);
    take_read(answer, part, out)
}

impl<F: FileExt + OpenFile> Medium for FileMedium<F> {
    ghost device = { λ m. file_device m.size m.blocks m.faults m.calls m.failed };

    ghost prepared = { λ m b. ⊤ };

    fn blocks(&self) -> u64 {
        self.blocks
    }

    fn size(&self) -> u32 {
        self.size
    }

    fn prepare(&mut self, _alloc: Global, _lba: u64, _count: u64) -> Result<(), AllocError> {
        Ok(())
    }

    fn read_blocks(&mut self, lba: u64, out: &mut [u8]) -> Result<(), BlockFailed> {
        let at = lba * u64::from(self.size);
        let read = if out.len() <= 4096 {
            read_whole::<F, 4096>(&self.file, at, out)
        } else {
            read_whole::<F, MOST_BYTES>(&self.file, at, out)
        };
        self.end_read(read)
    }

    fn write_blocks(&mut self, lba: u64, bytes: &[u8]) -> Result<(), BlockFailed> {
        let at = lba * u64::from(self.size);
        let answer = self.file.write_at(bytes, at);
        self.end_write(answer, bytes.len())
    }

    fn sync(&mut self) -> Result<(), BlockFailed> {
        let answer = self.file.sync_all();
        self.end_sync(answer)
    }

    ghost use Rattle.medium.specs.Files.{file_shaped};
    ghost use Rattle.std.specs.Coded.{Unit-prop};

    ghost shaped = { λ m. file_shaped m.size m.blocks m.faults m.calls m.failed m.one_of_four m.some m.fits };

    ghost prepared_once = { λ m b. Unit-prop };
}
