ghost use Rattle.std.specs.Prelude.{◌≡◌, ℕ, List};

use crate::file_slot::FileSlot;
use crate::{Images, PutFault, TakeFault};
use medium::{FileMedium, Volatile};
use std::alloc::{AllocError, Global};
use std::collections::BTreeMap;
use std::os::unix::fs::FileExt;
use std::rt::Files;

/// Images in files of the current folder, which tell nothing of their bytes (own profile).
///
/// A name must be an existing regular file. A medium of it reads and writes the file in place, and its tail stays in the
/// file untouched. When it is put back the system is asked to write the file through.
#[derive(Drop)]
pub struct FileImages<F> {
    files: F,
    slots: BTreeMap<String, FileSlot>,
}

impl<F: Files> FileImages<F>
where
    F::File: FileExt + Send,
{
    ghost use Rattle.image_store.specs.Slots.{unused_file};

    /// The files that this runtime reaches.
    pub fn make(alloc: Global, files: F) -> FileImages<F>
        ensures { (name : List ℕ) → ⟦<FileImages<F> as Images>⟧.at result name ≡ unused_file }
    {
        FileImages {
            files,
            slots: BTreeMap::new(alloc),
        }
    }
}

impl<F: Files> Images for FileImages<F>
where
    F::File: FileExt + Send,
{
    type M = Volatile<FileMedium<F::File>>;

    ghost use Rattle.image_store.specs.Slots.{file_at};

    ghost at = { λ images. file_at images.slots };

    #[tactic(auto, using(std::proofs::lemmas::Map::Text::text_keys))]
    fn take(
        &mut self,
        alloc: Global,
        name: &str,
        size: u32,
        cached: bool,
    ) -> Result<Volatile<FileMedium<F::File>>, TakeFault> {
        if !self.slots.contains_key(name) {
            let key = String::from_str(alloc, name)?;
            self.slots
                .insert(key, FileSlot::new())
                .map_err(AllocError::from)?;
        }
        match self.slots.get_mut(name) {
            Some(slot) => slot.take_out(alloc, &self.files, name, size, cached),
            None => unreachable!(),
        }
    }

    #[tactic(auto, using(std::proofs::lemmas::Map::Text::text_keys))]
    fn put_back(
        &mut self,
        _alloc: Global,
        name: &str,
        medium: Volatile<FileMedium<F::File>>,
    ) -> Result<(), PutFault> {
        match self.slots.get_mut(name) {
            Some(slot) => slot.put_in(medium),
            None => unreachable!(),
        }
    }
}
