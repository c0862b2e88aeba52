use crate::{Drive, InsertFault};
use efi_status::Status;
use medium::{Medium, MemMedium};
use std::test::Fail;

#[test]
fn two_media(rt: HostRuntime) -> Result<(), Fail> {
    let alloc = rt.alloc();
    let first = MemMedium::make(alloc, vec![in alloc; 1; 2 * 512]?, 512)?;
    let second = MemMedium::make(alloc, vec![in alloc; 2; 512]?, 512)?;
    let mut drive = Drive::make(vec![in alloc; first, second]?, false, false, 1);
    assert_eq!(rt; drive.count(), 2);
    assert_eq!(rt; drive.size(), 512);
    assert_eq!(rt; drive.per(), 1);
    assert_eq!(rt; drive.cached(), false);
    for (id, blocks) in [(0, None), (1, Some(2)), (2, Some(1)), (3, None)] {
        assert_eq!(rt; drive.blocks_of(id), blocks);
    }
    assert_eq!(rt; drive.insert(), Err(InsertFault::Occupied));
    assert_eq!(rt; drive.eject(), Ok(()));
    assert_eq!(rt; drive.present(), false);
    assert_eq!(rt; drive.eject(), Err(Status::NoMedia));
    drive.protect(true);
    assert_eq!(rt; drive.insert(), Ok(2));
    assert_eq!(rt; drive.media_id(), 2);
    assert_eq!(rt; drive.read_only(), true);
    assert_eq!(rt; drive.medium().map(|medium| medium.blocks()), Some(1));
    assert_eq!(rt; drive.eject(), Ok(()));
    assert_eq!(rt; drive.medium().is_none(), true);
    assert_eq!(rt; drive.insert(), Err(InsertFault::NoSpare));
    assert_eq!(rt; drive.into_media().len(), 2);
    Ok(())
}
