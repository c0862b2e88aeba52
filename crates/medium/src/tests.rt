ghost use Rattle.std.specs.Prelude.{◌≡◌, ◌+◌, ◌<◌, ◌≤◌};

use crate::{BlockFailed, Faulty, FileMedium, Medium, MemMedium, Planned, Volatile};
use std::alloc::{AllocError, Global};
use std::fs::{self, OpenOptions};
use std::test::Fail;

/// Writes this byte to so many blocks by one command, as the stack does through the trait.
fn fill<M: Medium>(
    alloc: Global,
    medium: &mut M,
    lba: u64,
    count: u64,
    byte: u8,
) -> Result<Result<(), BlockFailed>, AllocError>
    requires some { 0 < count }
    requires most { count ≤ 64 }
    requires fits { lba + count ≤ (M.device medium.old).blocks }
    ensures blocks { (M.device medium.new).blocks ≡ (M.device medium.old).blocks }
    ensures size { (M.device medium.new).size ≡ (M.device medium.old).size }
{
    medium.prepare(alloc, lba, count)?;
    let bytes = vec![in alloc; byte; (count * u64::from(medium.size())) as usize]?;
    Ok(medium.write_blocks(lba, &bytes))
}

/// Makes what was written stay, where it is asked to.
fn sync_where<M: Medium>(medium: &mut M, asked: bool) -> Result<(), BlockFailed>
    ensures blocks { (M.device medium.new).blocks ≡ (M.device medium.old).blocks }
    ensures size { (M.device medium.new).size ≡ (M.device medium.old).size }
{
    if asked { medium.sync() } else { Ok(()) }
}

/// The first byte of each of the first four blocks, which have 512 bytes.
fn firsts(bytes: &[u8]) -> [Option<u8>; 4] {
    [0, 512, 1024, 1536].map(|at| bytes.get(at).copied())
}

#[test]
fn planned_writes(rt: HostRuntime) -> Result<(), Fail> {
    let alloc = rt.alloc();
    for (planned, done) in [(0, 0), (1, 1), (2, 2), (3, 2), (u32::MAX, 2)] {
        let inner = MemMedium::make(alloc, vec![in alloc; 7; 3 * 512]?, 512)?;
        let plan = vec![in alloc;
            Planned {
                call: 1,
                done: planned
            },
            Planned { call: 1, done: 0 },
        ]?;
        let mut medium = Faulty::make(inner, plan);
        assert_eq!(rt; medium.sync(), Ok(()));
        assert_eq!(rt;
            fill(alloc, &mut medium, 0, 3, 9)?,
            Err(BlockFailed { done })
        );
        assert_eq!(rt; medium.failed(), 1);
        let bytes = medium.inner().into_bytes()?;
        let written = bytes.as_slice().iter().filter(|byte| **byte == 9).count();
        assert_eq!(rt; written, done as usize * 512);
    }
    Ok(())
}

#[test]
fn settled(rt: HostRuntime) -> Result<(), Fail> {
    let alloc = rt.alloc();
    for (cached, synced, kept) in [
        (true, false, [7, 7, 7, 7]),
        (true, true, [7, 9, 9, 7]),
        (false, false, [5, 5, 5, 7]),
    ] {
        let inner = MemMedium::make(alloc, vec![in alloc; 7; 4 * 512]?, 512)?;
        let mut medium = Volatile::make(alloc, inner, cached);
        assert_eq!(rt; fill(alloc, &mut medium, 1, 2, 9)?, Ok(()));
        assert_eq!(rt; sync_where(&mut medium, synced), Ok(()));
        assert_eq!(rt; fill(alloc, &mut medium, 0, 3, 5)?, Ok(()));
        let mut now = [0; 4 * 512];
        assert_eq!(rt; medium.read_blocks(0, &mut now), Ok(()));
        assert_eq!(rt; firsts(&now), [5, 5, 5, 7].map(Some));
        match medium.settle() {
            Ok(settled) => {
                let bytes = settled.into_bytes()?;
                assert_eq!(rt; firsts(&bytes), kept.map(Some));
            }
            Err(_) => assert!(rt; false),
        }
    }
    Ok(())
}

#[test]
fn commands_inside_fail_in_turn(rt: HostRuntime) -> Result<(), Fail> {
    let alloc = rt.alloc();
    // Two saving reads and the write, of which the first block is done where it fails.
    for (call, done) in [(2, 0), (3, 0), (4, 1)] {
        let inner = MemMedium::make(alloc, vec![in alloc; 7; 4 * 512]?, 512)?;
        let plan = vec![in alloc; Planned { call, done: 1 }]?;
        let mut medium = Volatile::make(alloc, Faulty::make(inner, plan), true);
        assert_eq!(rt; fill(alloc, &mut medium, 1, 1, 9)?, Ok(()));
        assert_eq!(rt;
            fill(alloc, &mut medium, 0, 3, 5)?,
            Err(BlockFailed { done })
        );
        assert_eq!(rt; medium.failed(), 1);
        match medium.settle() {
            Ok(settled) => {
                let bytes = settled.inner().into_bytes()?;
                assert_eq!(rt; firsts(&bytes), [7, 7, 7, 7].map(Some));
            }
            Err(_) => assert!(rt; false),
        }
    }
    Ok(())
}

#[test]
fn sync_or_settling_fails(rt: HostRuntime) -> Result<(), Fail> {
    let alloc = rt.alloc();
    for synced in [true, false] {
        let inner = MemMedium::make(alloc, vec![in alloc; 7; 4 * 512]?, 512)?;
        let plan = vec![in alloc; Planned { call: 2, done: 0 }]?;
        let mut medium = Volatile::make(alloc, Faulty::make(inner, plan), true);
        assert_eq!(rt; fill(alloc, &mut medium, 1, 1, 9)?, Ok(()));
        assert_eq!(rt; sync_where(&mut medium, synced).is_err(), synced);
        assert_eq!(rt; medium.failed(), u64::from(synced));
        match medium.settle() {
            Ok(settled) => {
                let bytes = settled.inner().into_bytes()?;
                assert_eq!(rt; firsts(&bytes), [7, 7, 7, 7].map(Some));
                assert!(rt; synced);
            }
            Err(_) => assert!(rt; !synced),
        }
    }
    Ok(())
}

/// What a command answers that failed before its first block.
const NONE_DONE: Result<(), BlockFailed> = Err(BlockFailed { done: 0 });

#[test]
fn file_commands_fail(rt: HostRuntime) -> Result<(), Fail> {
    let alloc = rt.alloc();
    let mut options = OpenOptions::new();
    let options = options.read(true).write(true);
    // A device of the system that takes no byte.
    let full = options.open(&rt, "/dev/full")?;
    let mut medium = FileMedium::make(full, 4, 512);
    assert_eq!(rt; fill(alloc, &mut medium, 0, 2, 9)?, NONE_DONE);
    // A file that ends within its second block.
    fs::write(&rt, "short.img", &[7; 700])?;
    let mut out = [5; 512];
    let whole = options.open(&rt, "short.img")?;
    let mut medium = FileMedium::make(whole, 2, 512);
    assert_eq!(rt; medium.read_blocks(0, &mut out), Ok(()));
    assert_eq!(rt; out, [7; 512]);
    let cut = options.open(&rt, "short.img")?;
    let mut medium = FileMedium::make(cut, 2, 512);
    assert_eq!(rt; medium.read_blocks(1, &mut out), NONE_DONE);
    assert_eq!(rt; out, [7; 512]);
    fs::remove_file(&rt, "short.img")?;
    Ok(())
}
