ghost use Rattle.std.specs.Prelude.{◌≡◌, ◌/◌, ◌<◌, ◌≤◌, false, Err, IfOk, OnErr, IsErr, IsErrOf};
ghost use Rattle.std.specs.Result.{IsOkAnd};
ghost use Rattle.medium.specs.Counts.{capped_sum};
ghost use Rattle.medium.specs.Device.{IsBlockSize};
ghost use Rattle.image_store.specs.Edge.{HasCauseOf};
ghost use Rattle.image_store.specs.Place.{IsFree, IsTaken, IsTaking, MayBeShort};
ghost use Rattle.image_store.specs.Slots.{put_answer};

use crate::{PutFault, TakeFault};
use medium::{BlockFailed, FileMedium, Medium, Volatile};
use std::alloc::Global;
use std::fs::{OpenFile, OpenOptions};
use std::os::unix::fs::FileExt;
use std::rt::Files;
use std::{fs, io};

/// What is kept of a file's name.
#[derive(Drop)]
pub struct FileSlot {
    pub taken: bool,
    pub faults: u64,
    pub worn: u64,
}

/// Opens an existing regular file for reading and writing, and asks for its length.
fn open_regular<F: Files>(files: &F, name: &str) -> io::Result<(F::File, u64)> {
    if !fs::metadata(files, name)?.is_file() {
        return Err(io::Error::from(io::ErrorKind::InvalidInput));
    }
    let file = OpenOptions::new().read(true).write(true).open(files, name)?;
    let length = file.metadata()?.len();
    Ok((file, length))
}

impl FileSlot {
    ghost use Rattle.image_store.specs.Slots.{file_place};

    /// A file that was never used.
    pub fn new() -> FileSlot
        ensures taken { result.taken ≡ false }
        ensures faults { result.faults ≡ 0 }
        ensures worn { result.worn ≡ 0 }
    {
        FileSlot {
            taken: false,
            faults: 0,
            worn: 0,
        }
    }

    /// Opens the file as a medium.
    #[tactic(auto, unfolding(crate::specs::Place::GivesBlocks))]
    pub fn take_out<F: Files>(
        &mut self,
        alloc: Global,
        files: &F,
        name: &str,
        size: u32,
        cached: bool,
    ) -> Result<Volatile<FileMedium<F::File>>, TakeFault>
    where
        F::File: FileExt,
        requires size { IsBlockSize size }
        requires free { IsFree (file_place self.old.taken) }
        ensures taken { IfOk result (λ medium. IsTaking (file_place self.old.taken) (file_place self.new.taken) size cached (⟦<Volatile<FileMedium<F::File>> as Medium>⟧.device medium)) }
        ensures stays { OnErr result (self.new.taken ≡ self.old.taken) }
        ensures short { IsErrOf result TakeFault.Short → MayBeShort (file_place self.old.taken) size }
        ensures cause { HasCauseOf TakeFault.Failed self.old.faults self.new.faults result }
        ensures worn { self.new.worn ≡ self.old.worn }
    {
        let answer = open_regular(files, name);
        self.end_take(alloc, answer, size, cached)
    }

    // The system opened a file of so many bytes, or it did not.
    #[tactic(auto, unfolding(crate::specs::Place::GivesBlocks))]
    fn end_take<D: FileExt + OpenFile + Drop>(
        &mut self,
        alloc: Global,
        answer: io::Result<(D, u64)>,
        size: u32,
        cached: bool,
    ) -> Result<Volatile<FileMedium<D>>, TakeFault>
        requires size { IsBlockSize size }
        requires free { IsFree (file_place self.old.taken) }
        ensures failed { IsErr answer → result ≡ Err TakeFault.Failed }
        ensures less { IfOk answer (λ opened. opened.1 < size → result ≡ Err TakeFault.Short) }
        ensures opened { IfOk answer (λ opened. size ≤ opened.1 → IsOkAnd result (λ medium. (⟦<Volatile<FileMedium<D>> as Medium>⟧.device medium).blocks ≡ opened.1 / size)) }
        ensures taken { IfOk result (λ medium. IsTaking (file_place self.old.taken) (file_place self.new.taken) size cached (⟦<Volatile<FileMedium<D>> as Medium>⟧.device medium)) }
        ensures stays { OnErr result (self.new.taken ≡ self.old.taken) }
        ensures short { IsErrOf result TakeFault.Short → MayBeShort (file_place self.old.taken) size }
        ensures cause { HasCauseOf TakeFault.Failed self.old.faults self.new.faults result }
        ensures worn { self.new.worn ≡ self.old.worn }
    {
        let Ok((file, length)) = answer else {
            self.faults = self.faults.saturating_add(1);
            return Err(TakeFault::Failed);
        };
        if length < u64::from(size) {
            return Err(TakeFault::Short);
        }
        let medium = FileMedium::make(file, length / u64::from(size), size);
        self.taken = true;
        Ok(Volatile::make(alloc, medium, cached))
    }

    /// Settles the medium, and asks the system to write the file through.
    pub fn put_in<D: FileExt + OpenFile + Drop>(
        &mut self,
        medium: Volatile<FileMedium<D>>,
    ) -> Result<(), PutFault>
        requires { IsTaken (file_place self.old.taken) }
        ensures taken { self.new.taken ≡ false }
        ensures cause { HasCauseOf PutFault.Failed self.old.faults self.new.faults result }
        ensures worn { self.new.worn ≡ capped_sum self.old.worn (⟦<Volatile<FileMedium<D>> as Medium>⟧.device medium).failed }
    {
        self.worn = self.worn.saturating_add(medium.failed());
        self.taken = false;
        let answer = write_through(medium);
        self.end_put(answer)
    }

    // The medium was settled and written through, or a command of it failed.
    fn end_put(&mut self, answer: Result<(), BlockFailed>) -> Result<(), PutFault>
        ensures answer { result ≡ put_answer answer }
        ensures stay { self.new ≡ record self.old { faults = self.new.faults } }
        ensures cause { HasCauseOf PutFault.Failed self.old.faults self.new.faults result }
    {
        match answer {
            Ok(()) => Ok(()),
            Err(_) => {
                self.faults = self.faults.saturating_add(1);
                Err(PutFault::Failed)
            }
        }
    }
}

/// Writes what is saved back, and asks the system to write the file through.
fn write_through<D: FileExt + OpenFile + Drop>(
    medium: Volatile<FileMedium<D>>,
) -> Result<(), BlockFailed> {
    let mut file = medium.settle()?;
    file.sync()
}
