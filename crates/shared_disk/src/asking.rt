ghost use Rattle.std.specs.Prelude.{◌≡◌, ◌≤◌, ◌^◌, IfOk};
ghost use Rattle.disk_core.specs.Calls.{asked_of, bytes_of};
ghost use Rattle.disk_io2.specs.Views.{whole_view};
ghost use Rattle.shared_disk.specs.Lines.{view_of, payload_bytes};
ghost use Rattle.shared_disk.specs.Desk.{IsAskedFor, IsBufferFor};

use crate::clients::Stand;
use disk_core::{Ask, Disk};
use history::{Asked, Kind, Payload, UnitKind, View};
use medium::Medium;
use std::alloc::{AllocError, Global};

/// The view of a line that names this medium.
pub fn line_view<M: Medium>(disk: &Disk<M>, stand: &Stand, media_id: u32) -> View
    ensures { result ≡ view_of disk.now.setup stand.now media_id }
{
    match stand {
        Stand::Child(view) => *view,
        Stand::Whole => whole_medium(disk, media_id),
    }
}

// The whole of a medium. One that the disk does not have is of no bytes.
fn whole_medium<M: Medium>(disk: &Disk<M>, media_id: u32) -> View
    ensures { result ≡ whole_view disk.now.setup media_id }
{
    let drive = disk.drive();
    let blocks = match drive.blocks_of(media_id) {
        Some(blocks) => blocks,
        None => 0,
    };
    View {
        start: 0,
        length: blocks * u64::from(drive.size()),
        media_id,
        index: 0,
    }
}

// The buffer that a line brings for its request. A read brings zeros. The error is want of memory.
fn buffer_of(alloc: Global, asked: &Asked, payload: &Payload) -> Result<Vec<u8>, AllocError>
    requires { IsAskedFor asked.now payload.now }
    ensures { IfOk result (λ buffer. IsBufferFor asked.now payload.now buffer.items) }
{
    match payload {
        Payload::Given(bytes) => Vec::from_slice(alloc, bytes.as_slice()),
        Payload::Fill(byte) => vec![in alloc; *byte; asked.length as usize],
        Payload::Nothing => vec![in alloc; 0; asked.length as usize],
    }
}

/// What a line asks the disk for, with a buffer of its own. The error is want of memory.
pub fn line_ask(alloc: Global, asked: &Asked, payload: &Payload) -> Result<Ask, AllocError>
    requires { IsAskedFor asked.now payload.now }
    ensures asked { IfOk result (λ ask. asked_of ask ≡ asked.now) }
    ensures bytes { IfOk result (λ ask. bytes_of ask ≡ payload_bytes asked.now.length payload.now) }
{
    let Asked { kind, unit, at, .. } = *asked;
    match (kind, unit) {
        (Kind::Flush, _) => Ok(Ask::Flush),
        (Kind::Erase, _) => Ok(Ask::EraseBlocks {
            lba: at,
            length: asked.length,
        }),
        (Kind::Read, UnitKind::Bytes) => Ok(Ask::Read {
            at,
            buffer: buffer_of(alloc, asked, payload)?,
        }),
        (Kind::Read, UnitKind::Blocks) => Ok(Ask::ReadBlocks {
            lba: at,
            buffer: buffer_of(alloc, asked, payload)?,
        }),
        (Kind::Write, UnitKind::Bytes) => Ok(Ask::Write {
            at,
            buffer: buffer_of(alloc, asked, payload)?,
        }),
        (Kind::Write, UnitKind::Blocks) => Ok(Ask::WriteBlocks {
            lba: at,
            buffer: buffer_of(alloc, asked, payload)?,
        }),
    }
}
