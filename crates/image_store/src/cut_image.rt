ghost use Rattle.std.specs.Prelude.{◌≤◌, length, IfOk};
ghost use Rattle.medium.specs.Device.{IsBlockSize};
ghost use Rattle.image_store.specs.Place.{IsCut};

use medium::{Medium, MemMedium};
use std::alloc::{AllocError, Global};

/// An image cut into a medium and a tail.
pub struct Cut {
    pub medium: MemMedium,
    pub tail: Vec<u8>,
}

/// Cuts an image of at least one block.
pub fn cut_image(alloc: Global, bytes: &[u8], size: u32) -> Result<Cut, AllocError>
    requires size { IsBlockSize size }
    requires long { size ≤ length bytes.now }
    ensures { IfOk result (λ cut. IsCut size bytes.now (⟦<MemMedium as Medium>⟧.device cut.medium) cut.tail.items) }
{
    let whole = bytes.len() / size as usize * size as usize;
    let tail = Vec::from_slice(alloc, &bytes[whole..])?;
    let medium = MemMedium::make(alloc, Vec::from_slice(alloc, &bytes[..whole])?, size)?;
    Ok(Cut { medium, tail })
}
