use crate::{Format, HardDrive, NodeFault, Sign, read_node, read_text, write_node, write_text};
use std::alloc::{AllocError, Global};
use std::fmt::Write;
use std::process::Abort;
use std::test::Fail;
use uuid::Uuid;

/// The bytes in lower-case hexadecimal digits.
fn hexadecimal(alloc: Global, bytes: &[u8]) -> Result<String, AllocError> {
    let mut text = String::new(alloc);
    for byte in bytes {
        write!(text, "{byte:02x}")?;
    }
    Ok(text)
}

/// A partition of a disk with a master boot record.
fn of_mbr(number: u32, sign: Sign, start: u64, size: u64) -> HardDrive {
    HardDrive {
        number,
        start,
        size,
        format: Format::Mbr,
        sign,
    }
}

/// A partition with a GUID of its own.
fn of_gpt(number: u32, guid: Uuid, start: u64, size: u64) -> HardDrive {
    HardDrive {
        number,
        start,
        size,
        format: Format::Gpt,
        sign: Sign::Guid(guid),
    }
}

/// This is the node of the partition, and this its text, both ways.
fn is_named(
    rt: &impl Abort,
    alloc: Global,
    drive: HardDrive,
    node: &str,
    text: &str,
) -> Result<(), Fail> {
    let written = write_node(&drive);
    let digits = hexadecimal(alloc, &written)?;
    assert_eq!(rt; digits.as_bytes(), node.as_bytes());
    assert_eq!(rt; read_node(&written), Ok(drive), "of {node}");
    let spelled = write_text(alloc, &drive)?;
    assert_eq!(rt; spelled.as_slice(), text.as_bytes());
    assert_eq!(rt;
        read_text(alloc, text.as_bytes())?,
        Some(drive),
        "of {text}"
    );
    Ok(())
}

#[test]
fn names_partitions_of_gpt(rt: HostRuntime) -> Result<(), Fail> {
    let first = Uuid::parse_str("11111111-1111-1111-1111-111111111111")?;
    let second = Uuid::parse_str("C12A7328-F81F-11D2-BA4B-00A0C93EC93B")?;
    is_named(
        &rt,
        rt.alloc(),
        of_gpt(1, first, 0x800, 0x400),
        "04012a000100000000080000000000000004000000000000111111111111111111111111111111110202",
        "HD(1,GPT,11111111-1111-1111-1111-111111111111,0x800,0x400)",
    )?;
    is_named(
        &rt,
        rt.alloc(),
        of_gpt(2, second, 0xc00, 0x3df),
        "04012a0002000000000c000000000000df0300000000000028732ac11ff8d211ba4b00a0c93ec93b0202",
        "HD(2,GPT,c12a7328-f81f-11d2-ba4b-00a0c93ec93b,0xc00,0x3df)",
    )
}

#[test]
fn names_partitions_of_mbr(rt: HostRuntime) -> Result<(), Fail> {
    is_named(
        &rt,
        rt.alloc(),
        of_mbr(1, Sign::Mbr(0x1234_5678), 0x40, 0x40),
        "04012a000100000040000000000000004000000000000000785634120000000000000000000000000101",
        "HD(1,MBR,0x12345678,0x40,0x40)",
    )?;
    is_named(
        &rt,
        rt.alloc(),
        of_mbr(5, Sign::Mbr(0x1234_5678), 2500, 100),
        "04012a0005000000c4090000000000006400000000000000785634120000000000000000000000000101",
        "HD(5,MBR,0x12345678,0x9c4,0x64)",
    )?;
    is_named(
        &rt,
        rt.alloc(),
        of_mbr(u32::MAX, Sign::Mbr(0xab), u64::MAX, u64::MAX),
        "04012a00ffffffffffffffffffffffffffffffffffffffffab0000000000000000000000000000000101",
        "HD(4294967295,MBR,0x000000ab,0xffffffffffffffff,0xffffffffffffffff)",
    )?;
    is_named(
        &rt,
        rt.alloc(),
        of_mbr(1, Sign::None, 0, 1),
        "04012a000100000000000000000000000100000000000000000000000000000000000000000000000100",
        "HD(1,MBR,0,0x0,0x1)",
    )
}

/// A node with a byte changed, or with another length.
#[test]
fn refuses_other_nodes(rt: HostRuntime) -> Result<(), Fail> {
    let node = write_node(&of_mbr(1, Sign::Mbr(0x1234_5678), 0x40, 0x40));
    let (_, front) = node.split_last().ok_or("no byte")?;
    assert_eq!(rt; read_node(front), Err(NodeFault::Length));
    assert_eq!(rt; read_node(&[]), Err(NodeFault::Length));
    let rows = [
        (2, 41, NodeFault::Length),
        (3, 1, NodeFault::Length),
        (0, 5, NodeFault::Kind),
        (1, 2, NodeFault::Kind),
        (40, 3, NodeFault::Format),
        (40, 0, NodeFault::Format),
        (41, 3, NodeFault::SignType),
        (28, 1, NodeFault::Signature),
        (39, 1, NodeFault::Signature),
        (41, 0, NodeFault::Signature),
    ];
    for (place, byte, want) in rows {
        let mut other = node;
        assert!(rt; place < 42);
        other[place] = byte;
        assert_eq!(rt; read_node(&other), Err(want), "byte {place} as {byte}");
    }
    Ok(())
}

/// A text, and others that no node has.
#[test]
fn refuses_other_texts(rt: HostRuntime) -> Result<(), Fail> {
    let unsigned = of_mbr(1, Sign::None, 0, 1);
    let text = b"HD(1,MBR,0,0x0,0x1)";
    assert_eq!(rt; read_text(rt.alloc(), text)?, Some(unsigned));
    let rows = [
        "HD(01,MBR,0,0x0,0x1)",
        "HD(+1,MBR,0,0x0,0x1)",
        "HD(4294967296,MBR,0,0x0,0x1)",
        "HD(1,mbr,0,0x0,0x1)",
        "HD(1,MBR,0x0,0x0,0x1)",
        "HD(1,MBR,0x1234567A,0x0,0x1)",
        "HD(1,MBR,0,0x00,0x1)",
        "HD(1,MBR,0,0,0x1)",
        "HD(1,MBR,0,0x0,0x10000000000000000)",
        "HD(1,MBR,0,0x0,0x1) ",
        "hd(1,MBR,0,0x0,0x1)",
        "HD(1,MBR,0,0x0)",
        "HD(1,GPT,C12A7328-F81F-11D2-BA4B-00A0C93EC93B,0x0,0x1)",
        "HD(1,GPT,c12a7328f81f11d2ba4b00a0c93ec93b,0x0,0x1)",
        "",
    ];
    for text in rows {
        assert_eq!(rt; read_text(rt.alloc(), text.as_bytes())?, None, "of {text}");
    }
    assert_eq!(rt; read_text(rt.alloc(), &[0xff])?, None);
    Ok(())
}
