use crate::{find, node_of, show, view_of};
use device_path::{Format, HardDrive, Sign};
use history::View;
use image_store::MemSink;
use partition_tables::{Child, Children, Origin, Table, TableKind};
use std::test::Fail;
use uuid::Uuid;

#[test]
fn children_are_disks(rt: HostRuntime) -> Result<(), Fail> {
    let alloc = rt.alloc();
    let unique = Uuid::from_bytes([0x11; 16]);
    let entry = Child {
        number: 1,
        first: 2048,
        blocks: 1024,
        origin: Origin::Gpt {
            kind: Uuid::nil(),
            unique,
            attributes: 0,
        },
    };
    assert_eq!(rt;
        view_of(&entry, 1, 512),
        View {
            start: 1_048_576,
            length: 524_288,
            media_id: 1,
            index: 1
        }
    );
    let node = HardDrive {
        number: 1,
        start: 2048,
        size: 1024,
        format: Format::Gpt,
        sign: Sign::Guid(unique),
    };
    assert_eq!(rt; node_of(&entry), node);
    let record = Origin::Mbr {
        os_type: 0x83,
        signature: 0x1234_5678,
        boot: 0,
    };
    let primary = Child {
        number: 1,
        first: 64,
        blocks: 64,
        origin: record,
    };
    let logical = Child {
        number: 6,
        first: 1510,
        blocks: 50,
        origin: record,
    };
    let table = Table {
        kind: TableKind::Mbr,
        children: Children::from_vec(Vec::from_slice(alloc, &[primary, logical])?),
    };
    let named = HardDrive {
        number: 6,
        start: 1510,
        size: 50,
        format: Format::Mbr,
        sign: Sign::Mbr(0x1234_5678),
    };
    assert_eq!(rt; find(&table, &named), Some(1));
    assert_eq!(rt;
        find(
            &table,
            &HardDrive {
                sign: Sign::None,
                ..named
            }
        ),
        None
    );
    assert_eq!(rt; find(&table, &node), None);
    let mut out = MemSink::make(alloc, Vec::new(alloc));
    assert_eq!(rt; show(alloc, &table, &mut out), Ok(()));
    assert_eq!(rt;
        out.bytes(),
        b"table mbr\n\
            child 1 first 64 blocks 64 type 83 id 12345678 attributes 0\n\
            child 6 first 1510 blocks 50 type 83 id 12345678 attributes 0\n"
            .as_slice()
    );
    Ok(())
}
