//! The disks of the rows.
ghost use Rattle.std.specs.Prelude.{◌≡◌, ℕ, ◌*◌, ◌%◌, ◌<◌, ◌≤◌, All, vec_len, IfOk};
ghost use Rattle.medium.specs.Device.{IsFresh};
ghost use Rattle.drive.specs.Drives.{IsPer};

use crate::Disk;
use drive::Drive;
use history::View;
use medium::{Faulty, Medium, MemMedium, Planned, Volatile};
use std::alloc::{AllocError, Global};

pub type Media = Faulty<Volatile<MemMedium>>;

// How many blocks a group has.
#[derive(Clone, Copy, PartialEq, Eq)]
pub enum Per {
    One,
    Four,
    Eight,
}

impl Per {
    fn blocks(self) -> u32
        ensures per { IsPer result }
        ensures few { result ≤ 8 }
    {
        match self {
            Per::One => 1,
            Per::Four => 4,
            Per::Eight => 8,
        }
    }
}

// What a row says of the disk that it is for: the groups of its first medium beside the first one, the byte of which the media
// are full, whether there is a second buffer set and a second medium, of one group, and which command of each medium fails.
#[derive(Clone, Copy)]
pub struct Shape {
    pub more_groups: u8,
    pub byte: u8,
    pub per: Per,
    pub second_set: bool,
    pub spare: bool,
    pub cached: bool,
    pub plan: Option<Planned>,
}

// One block of zeros and two buffer sets.
pub const PLAIN: Shape = Shape {
    more_groups: 0,
    byte: 0,
    per: Per::One,
    second_set: true,
    spare: false,
    cached: false,
    plan: None,
};

// The whole of the first medium.
pub fn view_of(shape: Shape) -> View {
    let groups = u64::from(shape.more_groups) + 1;
    View {
        start: 0,
        length: groups * u64::from(shape.per.blocks()) * 512,
        media_id: 1,
        index: 0,
    }
}

// A medium of so many groups.
fn medium_of(alloc: Global, groups: u32, per: u32, shape: Shape) -> Result<Media, AllocError>
    requires some { 0 < groups }
    requires few { groups ≤ 256 }
    requires per { IsPer per }
    ensures fresh { IfOk result (λ m. IsFresh (⟦<Media as Medium>⟧.device m)) }
    ensures size { IfOk result (λ m. (⟦<Media as Medium>⟧.device m).size ≡ 512) }
    ensures cached { IfOk result (λ m. (⟦<Media as Medium>⟧.device m).cached ≡ shape.cached) }
    ensures whole { IfOk result (λ m. (⟦<Media as Medium>⟧.device m).blocks % per ≡ 0) }
{
    let blocks = groups * per;
    let bytes = vec![in alloc; shape.byte; blocks as usize * 512]?;
    let inner = MemMedium::make(alloc, bytes, 512)?;
    let mut plan = Vec::new(alloc);
    if let Some(planned) = shape.plan {
        plan.push(planned)?;
    }
    Ok(Faulty::make(Volatile::make(alloc, inner, shape.cached), plan))
}

// The media of a row.
fn media_of(alloc: Global, per: u32, shape: Shape) -> Result<Vec<Media>, AllocError>
    requires per { IsPer per }
    ensures some { IfOk result (λ media. 0 < vec_len media) }
    ensures few { IfOk result (λ media. vec_len media ≤ 2) }
    ensures fresh { IfOk result (λ media. All (λ m. IsFresh (⟦<Media as Medium>⟧.device m)) media.items) }
    ensures size { IfOk result (λ media. All (λ m. (⟦<Media as Medium>⟧.device m).size ≡ 512) media.items) }
    ensures cached { IfOk result (λ media. All (λ m. (⟦<Media as Medium>⟧.device m).cached ≡ shape.cached) media.items) }
    ensures whole { IfOk result (λ media. All (λ m. (⟦<Media as Medium>⟧.device m).blocks % per ≡ 0) media.items) }
{
    let groups = u32::from(shape.more_groups) + 1;
    let mut media = Vec::new(alloc);
    media.push(medium_of(alloc, groups, per, shape)?)?;
    if shape.spare {
        media.push(medium_of(alloc, 1, per, shape)?)?;
    }
    Ok(media)
}

pub fn disk_of(alloc: Global, shape: Shape) -> Result<Disk<Media>, AllocError> {
    let per = shape.per.blocks();
    let media = media_of(alloc, per, shape)?;
    let drive = Drive::make(media, shape.cached, false, per);
    let sets = if shape.second_set { 2 } else { 1 };
    match Disk::make(alloc, drive, sets) {
        Ok(disk) => Ok(disk),
        Err(_) => Err(AllocError),
    }
}

// The kept bytes of a medium.
fn kept_of(medium: Media) -> Option<Vec<u8>> {
    let settled = medium.inner().settle().ok()?;
    settled.into_bytes().ok()
}

// The kept bytes of the media, one after the other.
pub fn kept_bytes(alloc: Global, disk: Disk<Media>) -> Option<Vec<u8>> {
    let mut bytes = Vec::new(alloc);
    let (media, _) = disk.into_media();
    for medium in media {
        let kept = kept_of(medium)?;
        bytes.extend_from_slice(&kept).ok()?;
    }
    Some(bytes)
}
