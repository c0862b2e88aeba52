use crate::{
    Failed, FileImages, Images, InSource, MemImages, MemSink, MemSource, OutSink, PutFault, Sink,
    Source, TakeFault,
};
use medium::{BlockFailed, Medium, Planned};
use std::alloc::{AllocError, Global};
use std::fs;
use std::test::Fail;

/// Writes this byte to all blocks of a small medium by one command, as the stack does through the trait.
fn fill<M: Medium>(
    alloc: Global,
    medium: &mut M,
    byte: u8,
) -> Result<Result<(), BlockFailed>, AllocError> {
    let count = medium.blocks().min(64);
    medium.prepare(alloc, 0, count)?;
    let bytes = vec![in alloc; byte; (count * u64::from(medium.size())) as usize]?;
    Ok(medium.write_blocks(0, &bytes))
}

#[test]
fn source_and_sink(rt: HostRuntime) -> Result<(), Fail> {
    let alloc = rt.alloc();
    let mut source = MemSource::make(vec![in alloc; 1, 2, 3]?, vec![in alloc; 1]?);
    let mut part = [0; 2];
    assert_eq!(rt; source.next(&mut part), Ok(2));
    assert_eq!(rt; part, [1, 2]);
    assert_eq!(rt; source.next(&mut part), Err(Failed));
    assert_eq!(rt; source.next(&mut part), Ok(1));
    assert_eq!(rt; part, [3, 2]);
    assert_eq!(rt; source.next(&mut part), Ok(0));
    let mut sink = MemSink::make(alloc, vec![in alloc; 1]?);
    assert_eq!(rt; sink.put(b"one"), Ok(()));
    assert_eq!(rt; sink.put(b"two"), Err(PutFault::Failed));
    assert_eq!(rt; sink.put(b"three"), Ok(()));
    assert_eq!(rt; sink.bytes(), b"onethree".as_slice());
    Ok(())
}

#[test]
fn readers_and_writers(rt: HostRuntime) -> Result<(), Fail> {
    let mut source = InSource::make(b"abc".as_slice());
    let mut part = [0; 2];
    assert_eq!(rt; source.next(&mut part), Ok(2));
    assert_eq!(rt; part, *b"ab");
    assert_eq!(rt; source.next(&mut part), Ok(1));
    assert_eq!(rt; source.next(&mut part), Ok(0));
    let mut text = Vec::<u8>::new(rt.alloc());
    let mut sink = OutSink::make(&mut text);
    assert_eq!(rt; sink.put(b"abc"), Ok(()));
    assert_eq!(rt; sink.put(b"de"), Ok(()));
    assert_eq!(rt; text.as_slice(), b"abcde".as_slice());
    Ok(())
}

#[test]
fn files(rt: HostRuntime) -> Result<(), Fail> {
    let alloc = rt.alloc();
    fs::create_dir(&rt, "folder.img")?;
    // A missing file, a folder, and a file that runs, which nobody may write.
    for name in ["no.img", "folder.img", "/proc/self/exe"] {
        let mut images = FileImages::make(alloc, &rt);
        assert_eq!(rt;
            images.take(alloc, name, 512, false).err(),
            Some(TakeFault::Failed)
        );
    }
    fs::remove_dir(&rt, "folder.img")?;
    for (cached, byte) in [(false, 9), (true, 7)] {
        let mut images = FileImages::make(alloc, &rt);
        fs::write(&rt, "one.img", &[7; 1030])?;
        let mut medium = images.take(alloc, "one.img", 512, cached)?;
        assert_eq!(rt; fill(alloc, &mut medium, 9)?, Ok(()));
        images.put_back(alloc, "one.img", medium)?;
        let mut back = vec![in alloc; byte; 1024]?;
        back.extend_from_slice(&[7; 6])?;
        assert_eq!(rt; fs::read(&rt, "one.img")?, back);
        fs::remove_file(&rt, "one.img")?;
    }
    Ok(())
}

#[test]
fn takes_images(rt: HostRuntime) -> Result<(), Fail> {
    let alloc = rt.alloc();
    let mut images = MemImages::make(alloc, vec![in alloc; 2]?);
    assert_eq!(rt;
        images.take(alloc, "a", 512, false).err(),
        Some(TakeFault::Failed)
    );
    images.add("a", &[7; 511], Vec::new(alloc))?;
    assert_eq!(rt;
        images.take(alloc, "a", 512, false).err(),
        Some(TakeFault::Short)
    );
    images.add("a", &[7; 512], Vec::new(alloc))?;
    assert_eq!(rt;
        images.take(alloc, "a", 512, false).err(),
        Some(TakeFault::Failed)
    );
    let _medium = images.take(alloc, "a", 512, false)?;
    assert_eq!(rt; images.bytes_of("a"), None);
    Ok(())
}

#[test]
fn puts_images_back(rt: HostRuntime) -> Result<(), Fail> {
    let alloc = rt.alloc();
    let mut images = MemImages::make(alloc, vec![in alloc; 3]?);
    let plan = vec![in alloc; Planned { call: 0, done: 1 }]?;
    images.add("a", &[7; 1030], plan)?;
    let mut medium = images.take(alloc, "a", 512, false)?;
    assert_eq!(rt; fill(alloc, &mut medium, 9)?, Err(BlockFailed { done: 1 }));
    images.put_back(alloc, "a", medium)?;
    let mut back = vec![in alloc; 9; 512]?;
    back.extend_from_slice(&[7; 518])?;
    assert_eq!(rt; images.bytes_of("a"), Some(back.as_slice()));
    let medium = images.take(alloc, "a", 512, false)?;
    assert_eq!(rt; images.put_back(alloc, "a", medium), Err(PutFault::Failed));
    assert_eq!(rt; images.bytes_of("a"), None);
    Ok(())
}
