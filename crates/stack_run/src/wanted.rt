ghost use Rattle.std.specs.Prelude.{◌≡◌, ◌++◌, ◌∷◌, [], map, IfOk, OnOk};
ghost use Rattle.stack_run.specs.Media.{media_names, wanted_by, wanted_of};

use script_text::{DiskPlan, Name};
use std::alloc::{AllocError, Global};

/// An image as a disk's medium is made of it (own profile).
#[derive(Drop)]
pub struct Wanted {
    /// Its name.
    pub image: Name,
    /// The size of a block in bytes: 512, 1024, 2048 or 4096.
    pub size: u32,
    /// Whether writes are cached until a flush.
    pub cached: bool,
    /// How many blocks a group has: 1, 2, 4 or 8.
    pub physical: u32,
}

// Adds an image of a disk. The error is want of memory.
fn add_wanted(
    alloc: Global,
    plan: &DiskPlan,
    name: &Name,
    all: &mut Vec<Wanted>,
) -> Result<(), AllocError>
    ensures { OnOk result (all.new.items ≡ all.old.items ++ wanted_by plan.now name.now ∷ []) }
{
    let image = Name::copy_of(alloc, name.as_str())?;
    all.push(Wanted {
        image,
        size: plan.size,
        cached: plan.cached,
        physical: plan.physical,
    })?;
    Ok(())
}

// Adds the images of a disk. The error is want of memory.
fn add_disk(alloc: Global, plan: &DiskPlan, all: &mut Vec<Wanted>) -> Result<(), AllocError>
    ensures { OnOk result (all.new.items ≡ all.old.items ++ map (wanted_by plan.now)
        (media_names plan.now)) }
{
    add_wanted(alloc, plan, &plan.image, all)?;
    for name in plan.spares.as_slice() {
        add_wanted(alloc, plan, name, all)?;
    }
    Ok(())
}

// All images of the disks in the order of taking: disk by disk, the opening image first and then its spares. The error is
// want of memory.
pub fn wanted_images(alloc: Global, disks: &[DiskPlan]) -> Result<Vec<Wanted>, AllocError>
    ensures { IfOk result (λ all. all.items ≡ wanted_of disks.now) }
{
    let mut all = Vec::new(alloc);
    for plan in disks {
        add_disk(alloc, plan, &mut all)?;
    }
    Ok(all)
}
