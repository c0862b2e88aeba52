use super::images::{blocks, disk_of, gpt_image, lines_of, mbr_image, put, steps_of};
use crate::{ProbeFault, probe};
use medium::Planned;
use std::test::Fail;

const GPT_LINES: &str =
    "child 1 first 2048 blocks 1024 type c12a7328-f81f-11d2-ba4b-00a0c93ec93b id 11111111-1111-1111-1111-111111111111 attributes 0\n\
    child 2 first 3072 blocks 991 type 0fc63daf-8483-4772-8e79-3d69d8477de4 id 22222222-2222-2222-2222-222222222222 attributes 5\n";

#[test]
fn reads_a_gpt(rt: HostRuntime) -> Result<(), Fail> {
    let alloc = rt.alloc();
    let mut disk = disk_of(alloc, gpt_image(alloc)?, &[])?;
    assert!(rt; probe(alloc, &mut disk).is_ok());
    assert_eq!(rt;
        steps_of(alloc, &disk)?.as_slice(),
        [
            ('a', 0, 512),
            ('g', 0, 1),
            ('c', 0, 0),
            ('a', 512, 512),
            ('g', 1, 1),
            ('c', 1, 0),
            ('a', 1024, 16384),
            ('g', 2, 32),
            ('c', 2, 0),
        ]
        .as_slice()
    );
    let mut bytes = gpt_image(alloc)?;
    for head in [
        b"table gpt-primary\n".as_slice(),
        b"table gpt-backup\n".as_slice(),
    ] {
        let lines = lines_of(alloc, bytes.clone()?)?;
        assert_eq!(rt; lines.strip_prefix(head), Some(GPT_LINES.as_bytes()));
        put(&mut bytes, 528, &[0x19]);
    }
    put(&mut bytes, 2_096_656, &[0xDB]);
    assert_eq!(rt;
        lines_of(alloc, bytes)?.as_slice(),
        b"table gpt-damaged\n".as_slice()
    );
    Ok(())
}

#[test]
fn reads_boot_records(rt: HostRuntime) -> Result<(), Fail> {
    let alloc = rt.alloc();
    let mut disk = disk_of(alloc, mbr_image(alloc)?, &[])?;
    assert!(rt; probe(alloc, &mut disk).is_ok());
    assert_eq!(rt;
        steps_of(alloc, &disk)?.as_slice(),
        [
            ('a', 0, 512),
            ('g', 0, 1),
            ('c', 0, 0),
            ('a', 512_000, 512),
            ('g', 1000, 1),
            ('c', 1, 0),
            ('a', 768_000, 512),
            ('g', 1500, 1),
            ('c', 2, 0),
        ]
        .as_slice()
    );
    assert_eq!(rt;
        lines_of(alloc, mbr_image(alloc)?)?.as_slice(),
        b"table mbr\n\
            child 1 first 64 blocks 64 type 83 id 12345678 attributes 0\n\
            child 5 first 2500 blocks 100 type 83 id 12345678 attributes 0\n\
            child 6 first 1510 blocks 50 type 83 id 12345678 attributes 0\n"
            .as_slice()
    );
    assert_eq!(rt;
        lines_of(alloc, blocks(alloc, 8)?)?.as_slice(),
        b"table plain\n".as_slice()
    );
    Ok(())
}

#[test]
fn ends_at_a_failure(rt: HostRuntime) -> Result<(), Fail> {
    let alloc = rt.alloc();
    let mut disk = disk_of(alloc, blocks(alloc, 8)?, &[Planned { call: 0, done: 0 }])?;
    assert_eq!(rt; probe(alloc, &mut disk).err(), Some(ProbeFault::Device));
    assert_eq!(rt;
        steps_of(alloc, &disk)?.as_slice(),
        [('a', 0, 512), ('f', 0, 0), ('c', 0, 0)].as_slice()
    );
    Ok(())
}
