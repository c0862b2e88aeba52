use crate::{report_table, report_unread};
use image_store::MemSink;
use partition_tables::{Child, Children, Origin, Table, TableKind};
use std::alloc::Global;
use std::test::Fail;
use uuid::Uuid;

const DISK: &str = "c12a7328-f81f-11d2-ba4b-00a0c93ec93b";

const OWN: &str = "11111111-1111-1111-1111-111111111111";

fn tables(alloc: Global) -> Result<[Table; 2], Fail> {
    let logical = Origin::Mbr {
        os_type: 0x7,
        signature: 0x12345678,
        boot: 128,
    };
    let entry = Origin::Gpt {
        kind: Uuid::parse_str(DISK)?,
        unique: Uuid::parse_str(OWN)?,
        attributes: u64::MAX,
    };
    let logicals = vec![in alloc;
        Child {
            number: 1,
            first: 64,
            blocks: 64,
            origin: logical
        },
        Child {
            number: 5,
            first: 2500,
            blocks: u64::MAX,
            origin: logical
        },
    ]?;
    let entries = vec![in alloc;
        Child {
            number: 1,
            first: 2048,
            blocks: 1024,
            origin: entry
        },
    ]?;
    Ok([
        Table {
            kind: TableKind::Mbr,
            children: Children::from_vec(logicals),
        },
        Table {
            kind: TableKind::GptPrimary,
            children: Children::from_vec(entries),
        },
    ])
}

#[test]
fn tables_and_children(rt: HostRuntime) -> Result<(), Fail> {
    let alloc = rt.alloc();
    let mut out = MemSink::make(alloc, Vec::new(alloc));
    for table in &tables(alloc)? {
        assert_eq!(rt; report_table(alloc, table, &mut out), Ok(()));
    }
    assert_eq!(rt; report_unread(&mut out), Ok(()));
    assert_eq!(rt;
        out.bytes(),
        b"table mbr\n\
            child 1 first 64 blocks 64 type 07 id 12345678 attributes 128\n\
            child 5 first 2500 blocks 18446744073709551615 type 07 id 12345678 attributes 128\n\
            table gpt-primary\n\
            child 1 first 2048 blocks 1024 type c12a7328-f81f-11d2-ba4b-00a0c93ec93b id 11111111-1111-1111-1111-111111111111 attributes 18446744073709551615\n\
            table unread\n"
            .as_slice()
    );
    Ok(())
}
