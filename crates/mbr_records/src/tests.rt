ghost use Rattle.std.specs.Prelude.{◌≤◌, ◌+◌};

use super::*;
use byteorder::{ByteOrder, LittleEndian};
use std::process::Abort;
use std::test::Fail;

/// A record's OS type, start and size.
type Entry = (u8, u32, u32);

const NONE: Entry = (0, 0, 0);

fn put(block: &mut [u8; 512], at: usize, entry: Entry)
    requires { at + 16 ≤ 512 }
{
    let (os_type, start, size) = entry;
    block[at + 4] = os_type;
    LittleEndian::write_u32(&mut block[at + 8..at + 12], start);
    LittleEndian::write_u32(&mut block[at + 12..at + 16], size);
}

/// A block with 55 AA, the disk signature 12345678 and these records.
fn block_of(entries: [Entry; 4]) -> [u8; 512] {
    let mut block = [0; 512];
    let [first, second, third, fourth] = entries;
    put(&mut block, 446, first);
    put(&mut block, 462, second);
    put(&mut block, 478, third);
    put(&mut block, 494, fourth);
    block[440] = 0x78;
    block[441] = 0x56;
    block[442] = 0x34;
    block[443] = 0x12;
    block[510] = 0x55;
    block[511] = 0xAA;
    block
}

/// Master boot records of a medium of 4,096 blocks: which records give a partition, the extended partition, and whether it is protective.
#[test]
fn reads_records(rt: HostRuntime) -> Result<(), Fail> {
    let used = (0x83, 64, 64);
    let rows = [
        (
            [used, (0x05, 1000, 2000), NONE, NONE],
            [true, false, false, false],
            Some((1000, 2000)),
            false,
        ),
        ([(0xEE, 1, 4095), NONE, NONE, NONE], [false; 4], None, true),
        (
            [NONE, NONE, (0xEE, 1, 0), used],
            [false, false, false, true],
            None,
            true,
        ),
        (
            [used, (0x07, 127, 10), NONE, (0x07, 137, 1)],
            [false, false, false, true],
            None,
            false,
        ),
        ([used, (0xEE, 100, 1), NONE, NONE], [false; 4], None, false),
        (
            [used, (0x07, 64, 0), (0x00, 64, 64), NONE],
            [true, false, false, false],
            None,
            false,
        ),
        (
            [(0x83, 4000, 97), (0x83, 0, 100), (0x83, 3904, 96), NONE],
            [false, true, true, false],
            None,
            false,
        ),
        (
            [(0x83, 4000, 96), (0x83, 0xFFFF_FFFF, 2), NONE, NONE],
            [true, false, false, false],
            None,
            false,
        ),
        (
            [(0x05, 4000, 1000), (0x0F, 128, 50), (0x05, 200, 50), used],
            [false, false, false, true],
            Some((128, 50)),
            false,
        ),
    ];
    for (entries, usable, extended, protective) in rows {
        let mut block = block_of(entries);
        let mbr = Mbr::read(&block).ok_or("55 AA")?;
        assert_eq!(rt; mbr.signature(), 0x1234_5678);
        let [first, _, _, fourth] = mbr.records();
        assert_eq!(rt;
            (first.boot, first.os_type, first.start, first.size),
            (0, entries[0].0, entries[0].1, entries[0].2)
        );
        assert_eq!(rt; (fourth.os_type, fourth.start, fourth.size), entries[3]);
        assert_eq!(rt; mbr.usable(4096), usable, "of {entries:?}");
        assert_eq!(rt; mbr.extended(4096), extended, "of {entries:?}");
        assert_eq!(rt; mbr.is_protective(), protective, "of {entries:?}");
        block[510] = 0xAA;
        assert!(rt; Mbr::read(&block).is_none());
    }
    Ok(())
}

/// Chains of the extended partition at block 1000 with 2,000 blocks: the blocks in the order in which they are asked for, with their
/// records, whether they are marked, and the logical partition that each gives. After the last the chain has ended.
#[test]
fn follows_chains(rt: HostRuntime) -> Result<(), Fail> {
    let data = (0x83, 1, 9);
    let chains: [&[(u64, Entry, Entry, bool, Option<(u64, u64)>)]; 6] = [
        &[
            (
                1000,
                (0x83, 1500, 100),
                (0x05, 500, 200),
                true,
                Some((2500, 100)),
            ),
            (
                1500,
                (0x83, 10, 50),
                (0x05, 500, 200),
                true,
                Some((1510, 50)),
            ),
        ],
        &[
            (1000, data, (0x0F, 100, 1), true, Some((1001, 9))),
            (1100, (0x83, 0, 9), (0x05, 0, 200), true, None),
        ],
        &[
            (
                1000,
                (0x83, 1999, 1),
                (0x05, 1999, 1),
                true,
                Some((2999, 1)),
            ),
            (2999, (0x83, 1, 1), (0x05, 2000, 1), true, None),
        ],
        &[(1000, (0x83, 1999, 2), (0x05, 100, 0), true, None)],
        &[(1000, (0xEE, 1, 9), (0x83, 100, 50), true, None)],
        &[(1000, data, (0x05, 100, 50), false, None)],
    ];
    for steps in chains {
        let mut chain = Chain::begin(1000, 2000);
        for (at, first, second, marked, logical) in steps {
            let mut block = block_of([*first, *second, NONE, NONE]);
            if !*marked {
                block[511] = 0x55;
            }
            assert_eq!(rt; chain.next_block(), Some(*at));
            assert_eq!(rt; chain.feed(&block), *logical, "at {at}");
        }
        assert_eq!(rt; chain.next_block(), None, "after {steps:?}");
    }
    ends_after_128(&rt)
}

/// Of a chain of 200 extended boot records, number i at block 1000 + 2 i, 128 are read.
fn ends_after_128(rt: &impl Abort) -> Result<(), Fail> {
    let mut chain = Chain::begin(1000, 500);
    let mut logical = 0;
    for i in 0..200_u32 {
        let Some(at) = chain.next_block() else {
            break;
        };
        assert_eq!(rt; at, 1000 + 2 * u64::from(i));
        let block = block_of([(0x83, 1, 1), (0x05, 2 * (i + 1), 2), NONE, NONE]);
        assert_eq!(rt; chain.feed(&block), Some((at + 1, 1)));
        logical = i + 1;
    }
    assert_eq!(rt; logical, 128);
    Ok(())
}
