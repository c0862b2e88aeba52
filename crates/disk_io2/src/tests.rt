ghost use Rattle.std.specs.Prelude.{◌<◌, IfOk};
ghost use Rattle.disk_core.specs.Turns.{IsIdle};

use crate::{
    cancel, flush_disk, flush_disk_ex, read_disk, read_disk_ex, whole, write_disk, write_disk_ex,
};
use disk_core::{Disk, Refused, Token, Why};
use drive::Drive;
use efi_status::Status;
use history::View;
use medium::MemMedium;
use std::alloc::{AllocError, Global};
use std::test::Fail;

// The first partition of a disk of 4,096 blocks.
const PART: View = View {
    start: 1048576,
    length: 524288,
    media_id: 1,
    index: 1,
};

// A disk over one medium of so many zero blocks.
fn disk_of(alloc: Global, blocks: u16) -> Result<Disk<MemMedium>, AllocError>
    requires some { 0 < blocks }
    ensures idle { IfOk result (λ disk. IsIdle disk.gates) }
{
    let bytes = vec![in alloc; 0; usize::from(blocks) * 512]?;
    let mut media = Vec::new(alloc);
    media.push(MemMedium::make(alloc, bytes, 512)?)?;
    match Disk::make(alloc, Drive::make(media, false, false, 1), 1) {
        Ok(disk) => Ok(disk),
        Err(_) => Err(AllocError),
    }
}

// Why a call was refused, if it was.
fn why(answer: Result<Vec<u8>, Refused>) -> Option<Why> {
    answer.err().map(|refused| refused.why)
}

// The number of a token that was accepted.
fn number(answer: Result<Token, Refused>) -> Option<u64> {
    answer.ok().map(|token| token.number)
}

// The bytes of the disk's medium.
fn bytes_of(disk: Disk<MemMedium>) -> Option<Vec<u8>> {
    let (media, _) = disk.into_media();
    let medium = media.into_iter().next()?;
    medium.into_bytes().ok()
}

#[test]
fn writes_the_last_byte_of_a_view(rt: HostRuntime) -> Result<(), Fail> {
    let alloc = rt.alloc();
    let mut disk = disk_of(alloc, 4096)?;
    let buffer = vec![in alloc; 0x5a; 1]?;
    assert_eq!(rt;
        why(write_disk(&mut disk, 1, &PART, 1, 524287, buffer)),
        None
    );
    let bytes = bytes_of(disk).unwrap_or(Vec::new(alloc));
    assert_eq!(rt; bytes.get(1572863), Some(&0x5a));
    assert_eq!(rt; bytes.iter().filter(|byte| **byte != 0).count(), 1);
    Ok(())
}

#[test]
fn refuses_a_write_past_a_view(rt: HostRuntime) -> Result<(), Fail> {
    let alloc = rt.alloc();
    let mut disk = disk_of(alloc, 4096)?;
    let buffer = vec![in alloc; 0x5a; 2]?;
    let refused = why(write_disk(&mut disk, 1, &PART, 1, 524287, buffer));
    assert_eq!(rt; refused, Some(Why::Status(Status::InvalidParameter)));
    Ok(())
}

#[test]
fn reads_and_flushes(rt: HostRuntime) -> Result<(), Fail> {
    let alloc = rt.alloc();
    let mut disk = disk_of(alloc, 2)?;
    let view = whole(&disk).unwrap_or(PART);
    assert_eq!(rt; view.length, 1024);
    assert_eq!(rt; why(flush_disk(&mut disk, 1, &view)), None);
    let read = read_disk(&mut disk, 1, &view, 1, 510, vec![in alloc; 7; 4]?);
    assert_eq!(rt;
        read.ok()
            .map(|bytes| bytes.iter().filter(|byte| **byte == 0).count()),
        Some(4)
    );
    Ok(())
}

#[test]
fn takes_requests_with_tokens(rt: HostRuntime) -> Result<(), Fail> {
    let alloc = rt.alloc();
    let mut disk = disk_of(alloc, 2)?;
    let view = whole(&disk).unwrap_or(PART);
    let buffer = vec![in alloc; 7; 4]?;
    assert_eq!(rt;
        number(read_disk_ex(&mut disk, 1, &view, 1, 510, buffer)),
        Some(0)
    );
    let buffer = vec![in alloc; 7; 4]?;
    assert_eq!(rt;
        number(write_disk_ex(&mut disk, 1, &view, 1, 510, buffer)),
        Some(1)
    );
    assert_eq!(rt; number(flush_disk_ex(&mut disk, 1, &view)), Some(2));
    assert_eq!(rt; cancel(&mut disk, 1, &view), 3);
    Ok(())
}
