use super::images::{
    TestHeader, blocks, disk_of, gpt_image, lines_of, put, put_entry, put_header, put_record,
};
use crate::probe;
use crc_table::crc32;
use std::alloc::{AllocError, Global};
use std::test::Fail;
use uuid::Uuid;

#[test]
fn ends_a_chain_of_200(rt: HostRuntime) -> Result<(), Fail> {
    let alloc = rt.alloc();
    let mut bytes = blocks(alloc, 1400)?;
    put_record(&mut bytes, 0, 0, 0x05, 1000, 400);
    for i in 0..200 {
        put_record(&mut bytes, 1000 + 2 * i, 0, 0x83, 1, 1);
        put_record(&mut bytes, 1000 + 2 * i, 1, 0x05, 2 * (u32::from(i) + 1), 2);
    }
    let mut disk = disk_of(alloc, bytes, &[])?;
    let table = probe(alloc, &mut disk).ok();
    let last = table.and_then(|table| table.children.as_slice().last().map(|child| (
        table.children.as_slice().len(),
        child.number,
        child.first,
    )));
    assert_eq!(rt; last, Some((128, 132, 1255)));
    Ok(())
}

// A protective record on 4,096 blocks, with a header at LBA 1 alone.
fn with_header(alloc: Global, header: &TestHeader) -> Result<Vec<u8>, AllocError> {
    let mut bytes = blocks(alloc, 4096)?;
    put_record(&mut bytes, 0, 0, 0xEE, 1, 4095);
    put_header(&mut bytes, header);
    Ok(bytes)
}

fn header_of(count: u32, entry_size: u32) -> TestHeader {
    TestHeader {
        lba: 1,
        alternate: 4095,
        array: 2,
        count,
        entry_size,
        array_crc: 0,
    }
}

#[test]
fn bounds_headers(rt: HostRuntime) -> Result<(), Fail> {
    let alloc = rt.alloc();
    for (header, lines) in [
        (header_of(u32::MAX, 128), "table gpt-damaged\n"),
        (header_of(0, 384), "table gpt-damaged\n"),
        (header_of(0, 1 << 31), "table gpt-primary\n"),
    ] {
        assert_eq!(rt;
            lines_of(alloc, with_header(alloc, &header)?)?.as_slice(),
            lines.as_bytes()
        );
    }
    let mut bytes = gpt_image(alloc)?;
    put_header(
        &mut bytes,
        &TestHeader {
            lba: 1,
            alternate: 4095,
            array: 4065,
            count: 128,
            entry_size: 128,
            array_crc: 0xF860_BFF9,
        },
    );
    assert!(rt; lines_of(alloc, bytes)?.starts_with(b"table gpt-backup\nchild 1 "));
    let mut cut = gpt_image(alloc)?;
    cut.truncate(3001 * 512);
    assert_eq!(rt;
        lines_of(alloc, cut)?.as_slice(),
        b"table gpt-primary\n".as_slice()
    );
    Ok(())
}

#[test]
fn refuses_blocks_of_two(rt: HostRuntime) -> Result<(), Fail> {
    let alloc = rt.alloc();
    let mut bytes = blocks(alloc, 4096)?;
    put_record(&mut bytes, 0, 0, 0xEE, 1, 4095);
    let kind = Uuid::from_bytes([7; 16]);
    put_entry(&mut bytes, 2, 0, &kind, &kind, [40, 50, 0]);
    put_entry(&mut bytes, 2, 1, &kind, &kind, [50, 60, 0]);
    put_entry(&mut bytes, 2, 2, &kind, &kind, [70, 70, 0]);
    let array_crc = crc32(bytes.get(1024..1408).unwrap_or(&[]));
    put_header(
        &mut bytes,
        &TestHeader {
            lba: 1,
            alternate: 4095,
            array: 2,
            count: 3,
            entry_size: 128,
            array_crc,
        },
    );
    let lines = lines_of(alloc, bytes)?;
    assert!(rt; lines.starts_with(b"table gpt-primary\nchild 3 first 70 blocks 1 "));
    Ok(())
}

#[test]
fn reads_8192_entries(rt: HostRuntime) -> Result<(), Fail> {
    let alloc = rt.alloc();
    let mut bytes = blocks(alloc, 10_000)?;
    put_record(&mut bytes, 0, 0, 0xEE, 1, 9999);
    for i in 0..8192 {
        let at = 1024 + i * 128;
        put(&mut bytes, at, &[1]);
        put(&mut bytes, at + 32, &(u64::from(i) + 1000).to_le_bytes());
        put(&mut bytes, at + 40, &(u64::from(i) + 1000).to_le_bytes());
    }
    let array_crc = crc32(bytes.get(1024..1_049_600).unwrap_or(&[]));
    put_header(
        &mut bytes,
        &TestHeader {
            lba: 1,
            alternate: 9999,
            array: 2,
            count: 8192,
            entry_size: 128,
            array_crc,
        },
    );
    put(&mut bytes, 560, &9998_u64.to_le_bytes());
    put(&mut bytes, 528, &[0; 4]);
    let crc = crc32(bytes.get(512..604).unwrap_or(&[]));
    put(&mut bytes, 528, &crc.to_le_bytes());
    let mut disk = disk_of(alloc, bytes, &[])?;
    let table = probe(alloc, &mut disk).ok();
    let count = table.map(|table| table.children.as_slice().len());
    assert_eq!(rt; count, Some(8192));
    Ok(())
}
