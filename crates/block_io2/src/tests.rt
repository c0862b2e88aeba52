ghost use Rattle.std.specs.Prelude.{◌≡◌, ◌%◌, ◌<◌, ◌≤◌, IfOk};
ghost use Rattle.disk_core.specs.Turns.{IsIdle};

use crate::{
    Media, erase_blocks, erase_blocks_ex, flush_blocks, flush_blocks_ex, media_of, read_blocks,
    read_blocks_ex, write_blocks, write_blocks_ex,
};
use disk_core::{Disk, Refused, Token, Why};
use disk_io2::write_disk;
use drive::Drive;
use efi_status::Status;
use history::View;
use medium::MemMedium;
use std::alloc::{AllocError, Global};
use std::test::Fail;

// The first partition of a disk of 4,096 blocks.
const PART: View = View {
    start: 1048576,
    length: 524288,
    media_id: 1,
    index: 1,
};

// A disk over one medium of so many blocks, all of which are this byte.
fn disk_of(alloc: Global, blocks: u16, byte: u8) -> Result<Disk<MemMedium>, AllocError>
    requires some { 0 < blocks }
    ensures idle { IfOk result (λ disk. IsIdle disk.gates) }
{
    let bytes = vec![in alloc; byte; usize::from(blocks) * 512]?;
    let mut media = Vec::new(alloc);
    media.push(MemMedium::make(alloc, bytes, 512)?)?;
    match Disk::make(alloc, Drive::make(media, false, false, 1), 1) {
        Ok(disk) => Ok(disk),
        Err(_) => Err(AllocError),
    }
}

// A disk over one medium of so many zero blocks, eight to a physical one.
fn grouped_disk(alloc: Global, blocks: u16) -> Result<Disk<MemMedium>, AllocError>
    requires some { 0 < blocks }
    requires whole { blocks % 8 ≡ 0 }
{
    let bytes = vec![in alloc; 0; usize::from(blocks) * 512]?;
    let mut media = Vec::new(alloc);
    media.push(MemMedium::make(alloc, bytes, 512)?)?;
    match Disk::make(alloc, Drive::make(media, false, false, 8), 1) {
        Ok(disk) => Ok(disk),
        Err(_) => Err(AllocError),
    }
}

// The whole of a medium of so many blocks.
fn whole_of(blocks: u64) -> View
    requires { blocks ≤ 4096 }
{
    View {
        start: 0,
        length: blocks * 512,
        media_id: 1,
        index: 0,
    }
}

// Why a call was refused, if it was.
fn why(answer: Result<Vec<u8>, Refused>) -> Option<Why> {
    answer.err().map(|refused| refused.why)
}

// Why a request with a token was refused, if it was.
fn why_not(answer: Result<Token, Refused>) -> Option<Why> {
    answer.err().map(|refused| refused.why)
}

// The bytes of the disk's medium.
fn bytes_of(disk: Disk<MemMedium>) -> Option<Vec<u8>> {
    let (media, _) = disk.into_media();
    let medium = media.into_iter().next()?;
    medium.into_bytes().ok()
}

// Whether just the bytes from `from` on and before `until` are zero.
fn zero_between(bytes: &[u8], from: usize, until: usize) -> bool {
    bytes
        .iter()
        .enumerate()
        .all(|(at, byte)| (*byte == 0) == (from <= at && at < until))
}

// What is told of a view of the disk of 4,096 blocks.
const MEDIA: Media = Media {
    media_id: 1,
    removable: true,
    present: true,
    logical: false,
    read_only: false,
    write_caching: false,
    block_size: 512,
    io_align: 0,
    last_block: 4095,
    lowest_aligned_lba: 0,
    blocks_per_physical: 1,
};

#[test]
fn tells_media(rt: HostRuntime) -> Result<(), Fail> {
    let disk = disk_of(rt.alloc(), 4096, 0)?;
    assert_eq!(rt; media_of(&disk, &whole_of(4096)), MEDIA);
    let logical = Media {
        logical: true,
        last_block: 1023,
        blocks_per_physical: 0,
        ..MEDIA
    };
    assert_eq!(rt; media_of(&disk, &PART), logical);
    Ok(())
}

#[test]
fn tells_physical_blocks(rt: HostRuntime) -> Result<(), Fail> {
    let disk = grouped_disk(rt.alloc(), 4096)?;
    let grouped = Media {
        blocks_per_physical: 8,
        ..MEDIA
    };
    assert_eq!(rt; media_of(&disk, &whole_of(4096)), grouped);
    Ok(())
}

#[test]
fn reads_blocks(rt: HostRuntime) -> Result<(), Fail> {
    let alloc = rt.alloc();
    let mut disk = disk_of(alloc, 2, 0xff)?;
    let view = whole_of(2);
    let ragged = why(read_blocks(&mut disk, 1, &view, 1, 0, vec![in alloc; 0; 700]?));
    assert_eq!(rt; ragged, Some(Why::Status(Status::BadBufferSize)));
    let past = why(read_blocks(&mut disk, 1, &view, 1, 2, vec![in alloc; 0; 512]?));
    assert_eq!(rt; past, Some(Why::Status(Status::InvalidParameter)));
    let read = read_blocks(&mut disk, 1, &view, 1, 1, vec![in alloc; 0; 512]?);
    assert_eq!(rt;
        read.ok().map(|bytes| zero_between(&bytes, 0, 0)),
        Some(true)
    );
    Ok(())
}

#[test]
fn erases_blocks(rt: HostRuntime) -> Result<(), Fail> {
    let alloc = rt.alloc();
    let mut disk = disk_of(alloc, 4, 0xff)?;
    let view = whole_of(4);
    let ragged = why(erase_blocks(&mut disk, 1, &view, 1, 0, 700));
    assert_eq!(rt; ragged, Some(Why::Status(Status::BadBufferSize)));
    assert_eq!(rt; why(erase_blocks(&mut disk, 1, &view, 1, 1, 1024)), None);
    assert_eq!(rt;
        bytes_of(disk).map(|bytes| zero_between(&bytes, 512, 1536)),
        Some(true)
    );
    Ok(())
}

#[test]
fn writes_and_flushes_blocks(rt: HostRuntime) -> Result<(), Fail> {
    let alloc = rt.alloc();
    let mut disk = disk_of(alloc, 4, 0xff)?;
    let view = whole_of(4);
    let zeros = vec![in alloc; 0; 1024]?;
    assert_eq!(rt; why(write_blocks(&mut disk, 1, &view, 1, 1, zeros)), None);
    assert_eq!(rt; why(flush_blocks(&mut disk, 1, &view)), None);
    assert_eq!(rt;
        bytes_of(disk).map(|bytes| zero_between(&bytes, 512, 1536)),
        Some(true)
    );
    Ok(())
}

#[test]
fn takes_requests_with_tokens(rt: HostRuntime) -> Result<(), Fail> {
    let alloc = rt.alloc();
    let mut disk = disk_of(alloc, 2, 0)?;
    let view = whole_of(2);
    let buffer = vec![in alloc; 0; 512]?;
    assert_eq!(rt;
        why_not(read_blocks_ex(&mut disk, 1, &view, 1, 1, buffer)),
        None
    );
    let buffer = vec![in alloc; 0; 512]?;
    assert_eq!(rt;
        why_not(write_blocks_ex(&mut disk, 1, &view, 1, 1, buffer)),
        None
    );
    assert_eq!(rt;
        why_not(erase_blocks_ex(&mut disk, 1, &view, 1, 0, 512)),
        None
    );
    assert_eq!(rt; why_not(flush_blocks_ex(&mut disk, 1, &view)), None);
    Ok(())
}

// The example of the README.
#[test]
fn example(rt: HostRuntime) -> Result<(), Fail> {
    let alloc = rt.alloc();
    let mut disk = disk_of(alloc, 4096, 0)?;
    let partition = View {
        start: 1048576,
        length: 524288,
        media_id: 1,
        index: 1,
    };
    let text = Vec::from_slice(alloc, b"text")?;
    assert!(rt; write_disk(&mut disk, 1, &partition, 1, 510, text).is_ok());
    let buffer = vec![in alloc; 0; 1024]?;
    let read = read_blocks(&mut disk, 1, &partition, 1, 0, buffer).ok();
    let bytes = read.unwrap_or(Vec::new(alloc));
    assert_eq!(rt; bytes.get(510..514), Some(b"text".as_slice()));
    let text = Vec::from_slice(alloc, b"text")?;
    assert!(rt; write_disk(&mut disk, 1, &partition, 1, 524286, text).is_err());
    Ok(())
}
