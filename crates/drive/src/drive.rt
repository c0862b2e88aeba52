ghost use Rattle.std.specs.Prelude.{◌≡◌, ℕ, ◌-◌, ◌%◌, ◌<◌, ◌≤◌, All, length, vec_len, Ok, Err, OnErr, IfOk, true, false, if◌then◌else◌};
ghost use Rattle.std.specs.Option.{option_map, option_copied_mut};
ghost use Rattle.std.specs.Borrow.{sem};
ghost use Rattle.medium.specs.Device.{IsFresh, IsBlockSize};
ghost use Rattle.drive.specs.Drives.{IsPer, most_media, medium_with, medium_in, insertion, FitTheDrive, IsFreshDrive};

use crate::InsertFault;
use efi_status::Status;
use medium::Medium;
use std::marker::Model;

/// The media of one disk. Medium k of the list, from 1, has the media id k; the first is in, and the others are spares in
/// order. Protection belongs to the drive and outlives a change of medium (own profile).
#[derive(Drop)]
pub struct Drive<M> {
    media: Vec<M>,
    media_id: u32,
    present: bool,
    protected: bool,
    cached: bool,
    size: u32,
    per: u32,
}

impl<M> Model for Drive<M> {
    ghost use Rattle.drive.specs.Drives.{DriveState, IsDrive};

    ghost Value = { DriveState M };

    ghost view = { λ d. record { media = d.media.items; media_id = d.media_id; present = d.present; protected = d.protected; cached = d.cached; size = d.size; per = d.per } };

    ghost invariant = { λ d. IsDrive {M = M} (record { media = d.media.items; media_id = d.media_id; present = d.present; protected = d.protected; cached = d.cached; size = d.size; per = d.per }) };
}

impl<M: Medium> Drive<M> {
    ghost use Rattle.drive.specs.Lends.{lends_medium};

    /// A drive over 1 to 16 media of one block size, each cached exactly where `cached`, and each of whole physical blocks
    /// of `per` blocks, which is 1, 2, 4 or 8. The first medium is in.
    pub fn make(media: Vec<M>, cached: bool, protected: bool, per: u32) -> Drive<M>
        requires some { 0 < vec_len media }
        requires few { vec_len media ≤ most_media }
        requires size { (block : ℕ) × All (λ m. (M.device m).size ≡ block) media.items }
        requires cached { All (λ m. (M.device m).cached ≡ cached) media.items }
        requires per { IsPer per }
        requires whole { All (λ m. (M.device m).blocks % per ≡ 0) media.items }
        ensures media { result.media ≡ media.items }
        ensures media_id { result.media_id ≡ 1 }
        ensures present { result.present ≡ true }
        ensures protected { result.protected ≡ protected }
        ensures cached { result.cached ≡ cached }
        ensures per { result.per ≡ per }
        ensures fit { FitTheDrive M.device result }
        ensures fresh { All (λ m. IsFresh (M.device m)) media.items → IsFreshDrive M.device result }
    {
        let size = media[0].size();
        Drive {
            media,
            media_id: 1,
            present: true,
            protected,
            cached,
            size,
            per,
        }
    }

    /// Whether a medium is in.
    pub fn present(&self) -> bool
        ensures { result ≡ self.now.present }
    {
        self.present
    }

    /// The id of the medium that is in, or was in last.
    pub fn media_id(&self) -> u32
        ensures value { result ≡ self.now.media_id }
        ensures first { 0 < result }
        ensures there { result ≤ length self.now.media }
    {
        self.media_id
    }

    /// Whether writes are refused.
    pub fn read_only(&self) -> bool
        ensures { result ≡ self.now.protected }
    {
        self.protected
    }

    /// Whether its media keep writes in a cache.
    pub fn cached(&self) -> bool
        ensures { result ≡ self.now.cached }
    {
        self.cached
    }

    /// How many blocks a physical block has: 1, 2, 4 or 8.
    pub fn per(&self) -> u32
        ensures value { result ≡ self.now.per }
        ensures range { IsPer result }
    {
        self.per
    }

    /// The number of its media, 1 to 16.
    pub fn count(&self) -> u32
        ensures value { result ≡ length self.now.media }
        ensures some { 0 < result }
        ensures few { result ≤ most_media }
    {
        self.media.len() as u32
    }

    /// The size of a block in bytes: one of the four.
    pub fn size(&self) -> u32
        ensures value { result ≡ self.now.size }
        ensures range { IsBlockSize result }
    {
        self.size
    }

    /// The number of blocks of the medium with this id. None exactly where no medium has it.
    pub fn blocks_of(&self, media_id: u32) -> Option<u64>
        ensures { result ≡ option_map (λ m. (M.device m).blocks) (medium_with self.now media_id) }
    {
        let place = media_id.checked_sub(1)?;
        let medium = self.media.get(place as usize)?;
        Some(medium.blocks())
    }

    // Where the medium that is in stands in the list, and past the list's end where none is in.
    fn place(&self) -> usize
        ensures { result ≡ (if self.now.present then self.now.media_id - 1 else length self.now.media) }
    {
        if self.present {
            self.media_id as usize - 1
        } else {
            self.media.len()
        }
    }

    /// Lends the medium that is in. None exactly where none is in. Nothing else of the drive changes through it.
    pub fn medium(&mut self) -> Option<&mut M>
        ensures* lends { sem 𝓛 (lends_medium M.row self.entry result) }
        ensures value { option_copied_mut result ≡ medium_in self.old }
    {
        let place = self.place();
        self.media.get_mut(place)
    }

    /// Takes the medium out. NoMedia exactly where none is in.
    pub fn eject(&mut self) -> Result<(), Status>
        ensures answer { result ≡ (if self.old.present then Ok _ else Err Status.NoMedia) }
        ensures drive { self.new ≡ record self.old { present = false } }
    {
        if !self.present {
            return Err(Status::NoMedia);
        }
        self.present = false;
        Ok(())
    }

    /// Puts the next spare in and answers its id. Occupied exactly where a medium is in, else NoSpare exactly where no
    /// spare is left; an ejected medium is none.
    pub fn insert(&mut self) -> Result<u32, InsertFault>
        ensures answer { result ≡ insertion self.old }
        ensures ok { IfOk result (λ id. self.new ≡ record self.old { present = true; media_id = id }) }
        ensures err { OnErr result (self.new ≡ self.old) }
    {
        if self.present {
            return Err(InsertFault::Occupied);
        }
        if self.media_id as usize >= self.media.len() {
            return Err(InsertFault::NoSpare);
        }
        self.media_id += 1;
        self.present = true;
        Ok(self.media_id)
    }

    /// Sets or lifts the protection.
    pub fn protect(&mut self, on: bool)
        ensures { self.new ≡ record self.old { protected = on } }
    {
        self.protected = on;
    }

    /// The media in order of their ids.
    pub fn into_media(self) -> Vec<M>
        ensures { result.items ≡ self.media }
    {
        let Drive { media, .. } = self;
        media
    }
}
