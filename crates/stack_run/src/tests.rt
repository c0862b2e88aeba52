ghost use Rattle.std.specs.Prelude.{ℕ, List, IfOk, OnOk};
ghost use Rattle.image_store.specs.Place.{IsFree};
ghost use Rattle.image_store.specs.Slots.{images_at};

mod clients;
mod disks;
mod generated;
mod probes;
mod refusals;
mod rows;
mod words;

use crate::run_plain;
use clients::CLIENTS;
use disks::DISKS;
use generated::{GENERATED, LARGE};
use image_store::{MemImages, MemSink, MemSource};
use medium::Planned;
use refusals::REFUSALS;
use rows::{FAULTS, ROWS};
use std::alloc::{AllocError, Global};
use std::process::Abort;
use std::test::Fail;

// What a run is given: its words, its script, the image `a.img` of so many zero bytes if there is one, and which calls fail.
#[derive(Drop)]
struct Given {
    words: &'static [&'static str],
    script: &'static str,
    image: Option<usize>,
    // Further images of zero bytes.
    others: &'static [Blank],
    planned: &'static [Planned],
    images_fail: &'static [u64],
    source_fails: &'static [u64],
    sink_fails: &'static [u64],
    // A star in the script or in what is written stands for this text so many times.
    star: &'static str,
    times: usize,
}

// An image of so many zero bytes.
#[derive(Drop)]
struct Blank {
    name: &'static str,
    length: usize,
}

// The bytes of an image that are not zero, from a place on.
struct Patch {
    at: usize,
    bytes: &'static [u8],
}

// What a run is given, and what it answers, writes and leaves of the image. None is left where the image is gone.
struct Row {
    given: Given,
    status: u8,
    written: &'static str,
    left: Option<Patch>,
}

// A write across the border of two blocks of zeros, and a read round it; nothing fails.
const FIRST: Given = Given {
    words: &["plain"],
    script: "disk a.img 512 1\nclient\nwrite 510 aabbccdd\nwait\nread 508 8\n",
    image: Some(1024),
    others: &[],
    planned: &[],
    images_fail: &[],
    source_fails: &[],
    sink_fails: &[],
    star: "",
    times: 0,
};

const UNCHANGED: Option<Patch> = Some(Patch { at: 0, bytes: &[] });

const ALL_WRITTEN: Option<Patch> = Some(Patch {
    at: 510,
    bytes: &[0xaa, 0xbb, 0xcc, 0xdd],
});

// What a run answered, wrote and left.
#[derive(Drop)]
struct Ran {
    status: u8,
    sink: MemSink,
    images: MemImages,
}

fn words_of(alloc: Global, words: &[&str]) -> Result<Vec<String>, AllocError> {
    let mut all = Vec::new(alloc);
    for word in words {
        all.push(String::from_str(alloc, word)?)?;
    }
    Ok(all)
}

// The text with its stars written out.
fn without_stars(alloc: Global, text: &str, given: &Given) -> Result<String, AllocError> {
    let star = given.star.repeat(alloc, given.times)?;
    text.replace(alloc, '*', star.as_str())
}

fn add_image(
    alloc: Global,
    images: &mut MemImages,
    image: &Blank,
    planned: &[Planned],
) -> Result<(), AllocError>
    requires { (name : List ℕ) → IsFree (images_at images.old name).place }
    ensures { OnOk result ((name : List ℕ) → IsFree (images_at images.new name).place) }
{
    let bytes = vec![in alloc; 0; image.length]?;
    let planned = Vec::from_slice(alloc, planned)?;
    images.add(image.name, &bytes, planned)?;
    Ok(())
}

// Adds the image `a.img`, if there is one.
fn add_first(alloc: Global, images: &mut MemImages, given: &Given) -> Result<(), AllocError>
    requires { (name : List ℕ) → IsFree (images_at images.old name).place }
    ensures { OnOk result ((name : List ℕ) → IsFree (images_at images.new name).place) }
{
    let name = "a.img";
    match given.image {
        Some(length) => add_image(alloc, images, &Blank { name, length }, given.planned),
        None => Ok(()),
    }
}

fn images_of(alloc: Global, given: &Given) -> Result<MemImages, AllocError>
    ensures free { IfOk result (λ images. (name : List ℕ) → IsFree (images_at images name).place) }
{
    let failing = Vec::from_slice(alloc, given.images_fail)?;
    let mut images = MemImages::make(alloc, failing);
    add_first(alloc, &mut images, given)?;
    for image in given.others {
        add_image(alloc, &mut images, image, &[])?;
    }
    Ok(images)
}

// Runs what is given, where these calls of the sink fail.
fn run(alloc: Global, given: &Given, sink_fails: &[u64]) -> Result<Ran, AllocError> {
    let script = without_stars(alloc, given.script, given)?;
    let script = Vec::from_slice(alloc, script.as_bytes())?;
    let failing = Vec::from_slice(alloc, given.source_fails)?;
    let mut source = MemSource::make(script, failing);
    let mut images = images_of(alloc, given)?;
    let mut sink = MemSink::make(alloc, Vec::from_slice(alloc, sink_fails)?);
    let words = words_of(alloc, given.words)?;
    let status = run_plain(alloc, words.as_slice(), &mut source, &mut images, &mut sink);
    Ok(Ran {
        status,
        sink,
        images,
    })
}

// An image of so many bytes, zero but for the patch.
fn patched(alloc: Global, length: usize, patch: &Patch) -> Result<Vec<u8>, AllocError> {
    let mut bytes = vec![in alloc; 0; patch.at]?;
    bytes.extend_from_slice(patch.bytes)?;
    bytes.resize(length, 0)?;
    Ok(bytes)
}

// Runs the row of this place in its table, and compares what it says.
fn compare(rt: &impl Abort, alloc: Global, place: usize, row: &Row) -> Result<(), AllocError> {
    let given = &row.given;
    let ran = run(alloc, given, given.sink_fails)?;
    assert_eq!(rt; ran.status, row.status, "row {place}");
    let written = without_stars(alloc, row.written, given)?;
    assert_eq!(rt; ran.sink.bytes(), written.as_bytes(), "row {place}");
    match &row.left {
        Some(patch) => {
            let image = patched(alloc, given.image.unwrap_or(0), patch)?;
            let left = ran.images.bytes_of("a.img").unwrap_or(&[]);
            assert_eq!(rt; left, image.as_slice(), "row {place}");
        }
        None => assert!(rt; ran.images.bytes_of("a.img").is_none(), "row {place}"),
    }
    Ok(())
}

fn compare_all(rt: &impl Abort, alloc: Global, rows: &[Row]) -> Result<(), AllocError> {
    for (place, row) in rows.iter().enumerate() {
        compare(rt, alloc, place, row)?;
    }
    Ok(())
}

#[test]
fn runs_rows(rt: HostRuntime) -> Result<(), Fail> {
    compare_all(&rt, rt.alloc(), &ROWS)?;
    Ok(())
}

#[test]
fn tells_faults_of_the_medium(rt: HostRuntime) -> Result<(), Fail> {
    compare_all(&rt, rt.alloc(), &FAULTS)?;
    Ok(())
}

#[test]
fn runs_disks(rt: HostRuntime) -> Result<(), Fail> {
    compare_all(&rt, rt.alloc(), &DISKS)?;
    Ok(())
}

#[test]
fn runs_clients(rt: HostRuntime) -> Result<(), Fail> {
    compare_all(&rt, rt.alloc(), &CLIENTS)?;
    Ok(())
}

// The head of the report of clients each of which has one line, the lines of their refusals, and its last line.
fn refusals_of(alloc: Global, clients: u32) -> Result<String, AllocError> {
    let mut text = String::from_str(alloc, "disk 1 a.img size 512 blocks 2\n")?;
    for place in 0..clients {
        let client = place as u64 + 1;
        let line = format!(in alloc;
            "{place} refuse {client} 0+1024@1/0 read bytes 1025 0 1 EFI_INVALID_PARAMETER\n"
        )?;
        text.push_str(line.as_str())?;
    }
    text.push_str("medium 1 a.img kept 1024\n")?;
    Ok(text)
}

// As many clients as a disk may have, each with one line that is refused.
const CROWD: Given = Given {
    script: "disk a.img 512 1\n*",
    star: "client\nread 1025 0\n",
    times: 64,
    ..FIRST
};

#[test]
fn serves_as_many_clients_as_may_be(rt: HostRuntime) -> Result<(), Fail> {
    let alloc = rt.alloc();
    let ran = run(alloc, &CROWD, &[])?;
    assert_eq!(rt; ran.status, 0);
    let report = refusals_of(alloc, 64)?;
    assert_eq!(rt; ran.sink.bytes(), report.as_bytes());
    Ok(())
}

#[test]
fn runs_generated_scripts(rt: HostRuntime) -> Result<(), Fail> {
    compare_all(&rt, rt.alloc(), &GENERATED)?;
    Ok(())
}

#[test]
fn runs_a_large_generated_script(rt: HostRuntime) -> Result<(), Fail> {
    compare_all(&rt, rt.alloc(), &[LARGE])?;
    Ok(())
}

#[test]
fn runs_it_again_the_same_way(rt: HostRuntime) -> Result<(), Fail> {
    compare_all(&rt, rt.alloc(), &[LARGE])?;
    Ok(())
}

#[test]
fn refuses_rows(rt: HostRuntime) -> Result<(), Fail> {
    compare_all(&rt, rt.alloc(), &REFUSALS)?;
    Ok(())
}

// Two reads of 131,072 digits each.
const LONG: Given = Given {
    script: "disk a.img 512 1\nclient\nread 0 65536\nread 0 65536\n",
    image: Some(65536),
    ..FIRST
};

// The line of the disk, a piece that ends with each of the two tokens, and the line of the medium.
const PIECES: u64 = 4;

#[test]
fn writes_a_front_where_the_sink_fails(rt: HostRuntime) -> Result<(), Fail> {
    let alloc = rt.alloc();
    let whole = run(alloc, &LONG, &[PIECES])?;
    assert_eq!(rt; whole.status, 0);
    let report = whole.sink.bytes();
    assert!(rt; 200 << 10 < report.len());
    for call in 0..PIECES {
        let ran = run(alloc, &LONG, &[call])?;
        assert_eq!(rt; ran.status, 5);
        let front = ran.sink.bytes();
        assert!(rt; front.len() < report.len());
        assert_eq!(rt; report.get(..front.len()), Some(front));
    }
    Ok(())
}
