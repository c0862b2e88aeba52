//! Probes of the images of usual tools.
ghost use Rattle.std.specs.Prelude.{ℕ, List, IfOk};
ghost use Rattle.image_store.specs.Place.{IsFree};
ghost use Rattle.image_store.specs.Slots.{images_at};

use super::{Patch, words_of};
use crate::run_plain;
use image_store::{MemImages, MemSink, MemSource};
use medium::Planned;
use std::alloc::{AllocError, Global};
use std::process::Abort;
use std::test::Fail;

// What is told of which image, zero but for these bytes, and what comes of it.
struct ProbeRow {
    word: &'static str,
    length: usize,
    image: &'static [Patch],
    planned: &'static [Planned],
    status: u8,
    written: &'static str,
}

const LENGTH: usize = 2_097_152;

// A protective record, a header, and three entries, of which the last is hidden.
const GPT: &[Patch] = &[
    Patch {
        at: 446,
        bytes: &[0, 0, 0, 0, 0xee, 0, 0, 0, 1, 0, 0, 0, 0xff, 0x0f, 0, 0],
    },
    Patch {
        at: 510,
        bytes: &[0x55, 0xaa],
    },
    Patch {
        at: 512,
        bytes: b"EFI PART",
    },
    Patch {
        at: 520,
        bytes: &[
            0, 0, 1, 0, 92, 0, 0, 0, 0x18, 0x10, 0x8a, 0x09, 0, 0, 0, 0, 1, 0, 0, 0, 0, 0, 0, 0,
            0xff, 0x0f, 0, 0, 0, 0, 0, 0, 34, 0, 0, 0, 0, 0, 0, 0, 0xde, 0x0f, 0, 0, 0, 0, 0, 0,
        ],
    },
    Patch {
        at: 568,
        bytes: &[
            0x33, 0x22, 0x11, 0, 0x55, 0x44, 0x77, 0x66, 0x88, 0x99, 0xaa, 0xbb, 0xcc, 0xdd, 0xee,
            0xff, 2, 0, 0, 0, 0, 0, 0, 0, 128, 0, 0, 0, 128, 0, 0, 0, 0xf9, 0xbf, 0x60, 0xf8,
        ],
    },
    Patch {
        at: 1024,
        bytes: &[
            0x28, 0x73, 0x2a, 0xc1, 0x1f, 0xf8, 0xd2, 0x11, 0xba, 0x4b, 0, 0xa0, 0xc9, 0x3e, 0xc9,
            0x3b, 0x11, 0x11, 0x11, 0x11, 0x11, 0x11, 0x11, 0x11, 0x11, 0x11, 0x11, 0x11, 0x11,
            0x11, 0x11, 0x11, 0, 8, 0, 0, 0, 0, 0, 0, 0xff, 0x0b, 0, 0, 0, 0, 0, 0,
        ],
    },
    Patch {
        at: 1152,
        bytes: &[
            0xaf, 0x3d, 0xc6, 0x0f, 0x83, 0x84, 0x72, 0x47, 0x8e, 0x79, 0x3d, 0x69, 0xd8, 0x47,
            0x7d, 0xe4, 0x22, 0x22, 0x22, 0x22, 0x22, 0x22, 0x22, 0x22, 0x22, 0x22, 0x22, 0x22,
            0x22, 0x22, 0x22, 0x22, 0, 0x0c, 0, 0, 0, 0, 0, 0, 0xde, 0x0f, 0, 0, 0, 0, 0, 0, 5,
        ],
    },
    Patch {
        at: 1280,
        bytes: &[
            0xaf, 0x3d, 0xc6, 0x0f, 0x83, 0x84, 0x72, 0x47, 0x8e, 0x79, 0x3d, 0x69, 0xd8, 0x47,
            0x7d, 0xe4, 0x33, 0x33, 0x33, 0x33, 0x33, 0x33, 0x33, 0x33, 0x33, 0x33, 0x33, 0x33,
            0x33, 0x33, 0x33, 0x33, 0xe8, 3, 0, 0, 0, 0, 0, 0, 0xcf, 7, 0, 0, 0, 0, 0, 0, 2,
        ],
    },
];

// Two records each at blocks 0, 1000 and 1500, of which the last names itself.
const MBR: &[Patch] = &[
    Patch {
        at: 440,
        bytes: &[0x78, 0x56, 0x34, 0x12],
    },
    Patch {
        at: 446,
        bytes: &[
            0, 0, 0, 0, 0x83, 0, 0, 0, 64, 0, 0, 0, 64, 0, 0, 0, 0, 0, 0, 0, 0x05, 0, 0, 0, 0xe8,
            3, 0, 0, 0xd0, 7, 0, 0,
        ],
    },
    Patch {
        at: 510,
        bytes: &[0x55, 0xaa],
    },
    Patch {
        at: 512_446,
        bytes: &[
            0, 0, 0, 0, 0x83, 0, 0, 0, 0xdc, 5, 0, 0, 100, 0, 0, 0, 0, 0, 0, 0, 0x05, 0, 0, 0,
            0xf4, 1, 0, 0, 200, 0, 0, 0,
        ],
    },
    Patch {
        at: 512_510,
        bytes: &[0x55, 0xaa],
    },
    Patch {
        at: 768_446,
        bytes: &[
            0, 0, 0, 0, 0x83, 0, 0, 0, 10, 0, 0, 0, 50, 0, 0, 0, 0, 0, 0, 0, 0x05, 0, 0, 0, 0xf4,
            1, 0, 0, 200, 0, 0, 0,
        ],
    },
    Patch {
        at: 768_510,
        bytes: &[0x55, 0xaa],
    },
];

const FIRST_PROBE: ProbeRow = ProbeRow {
    word: "probe",
    length: LENGTH,
    image: GPT,
    planned: &[],
    status: 0,
    written: "table gpt-primary\n\
        child 1 first 2048 blocks 1024 type c12a7328-f81f-11d2-ba4b-00a0c93ec93b id 11111111-1111-1111-1111-111111111111 attributes 0\n\
        child 2 first 3072 blocks 991 type 0fc63daf-8483-4772-8e79-3d69d8477de4 id 22222222-2222-2222-2222-222222222222 attributes 5\n",
};

const PROBES: [ProbeRow; 8] = [
    FIRST_PROBE,
    ProbeRow {
        word: "paths",
        written: "path 1 04012a000100000000080000000000000004000000000000111111111111111111111111111111110202 HD(1,GPT,11111111-1111-1111-1111-111111111111,0x800,0x400)\n\
            path 2 04012a0002000000000c000000000000df03000000000000222222222222222222222222222222220202 HD(2,GPT,22222222-2222-2222-2222-222222222222,0xc00,0x3df)\n",
        ..FIRST_PROBE
    },
    ProbeRow {
        image: MBR,
        written: "table mbr\n\
            child 1 first 64 blocks 64 type 83 id 12345678 attributes 0\n\
            child 5 first 2500 blocks 100 type 83 id 12345678 attributes 0\n\
            child 6 first 1510 blocks 50 type 83 id 12345678 attributes 0\n",
        ..FIRST_PROBE
    },
    ProbeRow {
        word: "paths",
        image: MBR,
        written: "path 1 04012a000100000040000000000000004000000000000000785634120000000000000000000000000101 HD(1,MBR,0x12345678,0x40,0x40)\n\
            path 5 04012a0005000000c4090000000000006400000000000000785634120000000000000000000000000101 HD(5,MBR,0x12345678,0x9c4,0x64)\n\
            path 6 04012a0006000000e6050000000000003200000000000000785634120000000000000000000000000101 HD(6,MBR,0x12345678,0x5e6,0x32)\n",
        ..FIRST_PROBE
    },
    // A table without children, and a medium whose first command fails.
    ProbeRow {
        word: "paths",
        length: 512,
        image: &[],
        written: "",
        ..FIRST_PROBE
    },
    ProbeRow {
        planned: &[Planned { call: 0, done: 0 }],
        written: "table unread\n",
        ..FIRST_PROBE
    },
    ProbeRow {
        word: "paths",
        planned: &[Planned { call: 0, done: 0 }],
        written: "table unread\n",
        ..FIRST_PROBE
    },
    ProbeRow {
        length: 511,
        image: &[],
        status: 3,
        written: "image a.img\n",
        ..FIRST_PROBE
    },
];

// So many zero bytes, but for the patches.
fn image_bytes(alloc: Global, length: usize, patches: &[Patch]) -> Result<Vec<u8>, AllocError> {
    let mut bytes = Vec::new(alloc);
    for patch in patches {
        bytes.resize(patch.at, 0)?;
        bytes.extend_from_slice(patch.bytes)?;
    }
    bytes.resize(length, 0)?;
    Ok(bytes)
}

fn images_with(alloc: Global, bytes: &[u8], planned: &[Planned]) -> Result<MemImages, AllocError>
    ensures { IfOk result (λ images. (name : List ℕ) → IsFree (images_at images name).place) }
{
    let mut images = MemImages::make(alloc, Vec::new(alloc));
    images.add("a.img", bytes, Vec::from_slice(alloc, planned)?)?;
    Ok(images)
}

fn compare_probe(
    rt: &impl Abort,
    alloc: Global,
    place: usize,
    row: &ProbeRow,
) -> Result<(), AllocError> {
    let bytes = image_bytes(alloc, row.length, row.image)?;
    let mut images = images_with(alloc, &bytes, row.planned)?;
    let mut sink = MemSink::make(alloc, Vec::new(alloc));
    let mut source = MemSource::make(Vec::new(alloc), Vec::new(alloc));
    let words = words_of(alloc, &[row.word, "a.img", "512"])?;
    let status = run_plain(alloc, words.as_slice(), &mut source, &mut images, &mut sink);
    assert_eq!(rt; status, row.status, "row {place}");
    assert_eq!(rt; sink.bytes(), row.written.as_bytes(), "row {place}");
    assert_eq!(rt;
        images.bytes_of("a.img"),
        Some(bytes.as_slice()),
        "row {place}"
    );
    Ok(())
}

#[test]
fn probes_images(rt: HostRuntime) -> Result<(), Fail> {
    for (place, row) in PROBES.iter().enumerate() {
        compare_probe(&rt, rt.alloc(), place, row)?;
    }
    Ok(())
}
