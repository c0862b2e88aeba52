ghost use Rattle.std.specs.Prelude.{◌≡◌, ℕ, ◌*◌, ◌^◌, ◌<◌, ◌≤◌, ◌⊎◌, List, ◌∷◌, [], length, string_bytes, replicate, map, Ok, None, Some, IfOk};
ghost use Rattle.crc_table.specs.Crc32.{crc32_of};
ghost use Rattle.drive.specs.Drives.{FitTheDrive, IsFreshDrive};
ghost use Rattle.disk_core.specs.State.{setup_of};
ghost use Rattle.history.specs.Setup.{Setup};
ghost use Rattle.image_store.specs.Edge.{Appends, AppendsFront};
ghost use Rattle.medium.specs.Memory.{memory_device};
ghost use Rattle.script_text.specs.Fitting.{IsDiskPlan, AreDisks};
ghost use Rattle.script_text.specs.Limits.{most_script_bytes};
ghost use Rattle.script_text.specs.Planned.{disk_lines, planned_lines};
ghost use Rattle.script_text.specs.Report.{AreEnds};
ghost use Rattle.script_text.specs.Whole.{script_of};
ghost use Rattle.stack_run.specs.Generated.{IsGeneratedScript};
ghost use Rattle.stack_run.specs.GeneratedRun.{IsOneDisk, zero_setup, IsSumOf, IsSummed, SummaryCut};
ghost use Rattle.stack_run.specs.Program.{refusal_text, WritesLine};
ghost use Rattle.stack_run.specs.Starting.{part_line, AreWhole};
ghost use Rattle.stack_run.specs.Summary.{summary_text};

use crate::desk_run::{Run, run_desk};
use crate::generator::generate;
use crate::refusal::Refusal;
use crate::refusing::refuse;
use crate::summary::summary_of;
use crc_table::crc32;
use disk_core::Disk;
use drive::Drive;
use image_store::{PutFault, Sink};
use medium::{Medium, MemMedium};
use script_text::{DiskPlan, Script, ScriptRefused, read_script};
use std::alloc::{AllocError, Global};

// How many blocks of 512 bytes the image has.
const IMAGE_BLOCKS: u64 = 2048;

// Reads a text that is a script. The error is want of memory.
fn read_generated(alloc: Global, text: &[u8]) -> Result<Script, AllocError>
    requires { IsGeneratedScript text.now }
    ensures says { IfOk result (λ script. script_of text.now ≡ Ok script.disks) }
    ensures one { IfOk result (λ script. IsOneDisk script.disks) }
    ensures fit { IfOk result (λ script. AreDisks script.disks) }
    ensures whole { IfOk result (λ script. AreWhole script.disks) }
    ensures lines { IfOk result (λ script. planned_lines script.disks ≤ most_script_bytes) }
{
    match read_script(alloc, text) {
        Ok(script) => Ok(script),
        Err(ScriptRefused::Fault { .. }) => unreachable!(),
        Err(ScriptRefused::Memory) => Err(AllocError),
    }
}

// A medium in memory of so many blocks of zeros. The error is want of memory.
fn zero_medium(alloc: Global, blocks: u64) -> Result<MemMedium, AllocError>
    requires some { 0 < blocks }
    requires few { blocks < 2 ^ 32 }
    ensures { IfOk result (λ medium. let zeros = replicate (blocks * 512) 0 in
        ⟦<MemMedium as Medium>⟧.device medium ≡ memory_device zeros zeros 512 blocks 0) }
{
    let bytes = vec![in alloc; 0; blocks as usize * 512]?;
    MemMedium::make(alloc, bytes, 512)
}

// A drive with this medium alone. The error is want of memory.
fn zero_drive(alloc: Global, blocks: u64) -> Result<Drive<MemMedium>, AllocError>
    requires some { 0 < blocks }
    requires few { blocks < 2 ^ 32 }
    ensures setup { IfOk result (λ drive.
        setup_of ⟦<MemMedium as Medium>⟧.device drive drive.protected ≡ zero_setup blocks) }
    ensures count { IfOk result (λ drive. length drive.media ≡ 1) }
    ensures fit { IfOk result (λ drive. FitTheDrive ⟦<MemMedium as Medium>⟧.device drive) }
    ensures fresh { IfOk result (λ drive. IsFreshDrive ⟦<MemMedium as Medium>⟧.device drive) }
{
    let mut media = Vec::new(alloc);
    media.push(zero_medium(alloc, blocks)?)?;
    Ok(Drive::make(media, false, false, 1))
}

// The summary of what a disk did, over the image that this medium has become. The error is want of memory.
fn sum_of(alloc: Global, medium: MemMedium, run: &Run) -> Result<String, AllocError>
    ensures { (S : Setup) → AreEnds S run.now.history.entries run.now.ends.items
        → IfOk result (λ text. (image : List ℕ) ×
        ((⟦<MemMedium as Medium>⟧.device medium).now ≡ Some image)
        × (string_bytes text ≡ summary_text S run.now.history.entries (crc32_of image))) }
{
    let image = medium.into_bytes()?;
    let text = summary_of(alloc, &run.history, &run.ends, crc32(&image))?;
    Ok(text)
}

// Runs the lines of a disk over so many blocks of zeros, and sums it up. The error is want of memory.
fn summed_run(alloc: Global, plan: &DiskPlan, blocks: u64) -> Result<String, AllocError>
    requires disk { IsDiskPlan plan.now }
    requires lines { disk_lines plan.now ≤ most_script_bytes }
    requires alone { plan.now.spares ≡ [] }
    requires whole { part_line plan.now ≡ None }
    requires some { 0 < blocks }
    requires few { blocks < 2 ^ 32 }
    ensures { IfOk result (λ text. IsSumOf plan.now (zero_setup blocks)
        (λ all. string_bytes text ≡ all)) }
{
    let drive = zero_drive(alloc, blocks)?;
    let disk = match Disk::make(alloc, drive, 1) {
        Ok(disk) => disk,
        Err(_) => return Err(AllocError),
    };
    let (mut media, run) = run_desk(alloc, plan, disk, None);
    match run {
        Some(run) => {
            let text = sum_of(alloc, media.remove(0), &run)?;
            Ok(text)
        }
        None => Err(AllocError),
    }
}

// The summary of the script that a number makes. The error is want of memory.
fn generated_summary(
    alloc: Global,
    number: u64,
    clients: u64,
    lines: u64,
) -> Result<String, AllocError>
    requires clients { 1 ≤ clients }
    requires most { clients ≤ 64 }
    requires lines { 1 ≤ lines }
    requires all { clients * lines ≤ 100000 }
    ensures { IfOk result (λ text. IsSummed number clients lines
        (λ all. string_bytes text ≡ all)) }
{
    let text = generate(alloc, number, clients, lines)?;
    let script = read_generated(alloc, &text)?;
    let summary = summed_run(alloc, &script.disks.as_slice()[0], IMAGE_BLOCKS)?;
    Ok(summary)
}

/// Runs the script that a number makes plainly over an image of 1,048,576 zero bytes in memory, and writes what it did in
/// numbers (own profile). It answers the program's status, each with its cause:
///
/// - 0: the summary of the plain run, in which no command failed, was written.
/// - 5 where the sink failed: a front of the summary was written.
/// - 6 for want of memory, which the line says.
pub fn run_generated<O: Sink>(
    alloc: Global,
    number: u64,
    clients: u64,
    lines: u64,
    out: &mut O,
) -> u8
    requires clients { 1 ≤ clients }
    requires most { clients ≤ 64 }
    requires lines { 1 ≤ lines }
    requires all { clients * lines ≤ 100000 }
    ensures done { result ≡ 0 → IsSummed number clients lines
        (Appends (O.outlet out.old).wrote (O.outlet out.new).wrote) }
    ensures quiet { result ≡ 0 → (O.outlet out.new).faults ≡ (O.outlet out.old).faults }
    ensures sink { result ≡ 5 → SummaryCut number clients lines (O.outlet out.old) (O.outlet out.new) }
    ensures memory { result ≡ 6 → WritesLine (refusal_text Refusal.Memory []) (O.outlet out.old)
        (O.outlet out.new) }
    ensures few { (result ≡ 0) ⊎ ((result ≡ 5) ⊎ (result ≡ 6)) }
{
    let text = match generated_summary(alloc, number, clients, lines) {
        Ok(text) => text,
        Err(_) => return refuse(Refusal::Memory, "", out),
    };
    match out.put(text.as_bytes()) {
        Ok(()) => 0,
        Err(PutFault::Failed) => 5,
        Err(PutFault::Memory) => refuse(Refusal::Memory, "", out),
    }
}
