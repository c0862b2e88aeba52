ghost use Rattle.std.specs.Prelude.{◌≡◌, ℕ, ◌≤◌, ◌⊎◌, [], List, map, string_bytes, None, Some, IsSome};
ghost use Rattle.medium.specs.Counts.{Rose};
ghost use Rattle.image_store.specs.Edge.{Appends};
ghost use Rattle.image_store.specs.Place.{ChangesOnly, IsFree};
ghost use Rattle.script_text.specs.Fitting.{AreDisks, FitTogether};
ghost use Rattle.script_text.specs.Limits.{most_script_bytes};
ghost use Rattle.script_text.specs.Planned.{planned_lines};
ghost use Rattle.stack_run.specs.Serving.{Served, LacksImage};
ghost use Rattle.stack_run.specs.Starting.{AreWhole};
ghost use Rattle.stack_run.specs.GeneratedRun.{Generates};
ghost use Rattle.stack_run.specs.Listing.{ListsImage};
ghost use Rattle.stack_run.specs.Words.{row_of, IfGenerated, IfProbe};
ghost use Rattle.stack_run.specs.Program.{refusal_text, WritesRefusal, ScriptRefused, OfScript, ImageFailed, SinkFailed, ServingRanOut, MemoryRanOut, IsToldRefused, IsToldLacking, IsToldServable, IsNoRise, IsServingStatus};

use crate::generated_run::run_generated;
use crate::listing::Listing;
use crate::probe_run::run_probe;
use crate::reading::{NotRead, read_source};
use crate::refusal::{Refusal, Unserved};
use crate::refusing::refuse;
use crate::serving::serve;
use crate::wanted::wanted_images;
use crate::words::{Row, row_of};
use image_store::{Images, Sink, Source};
use script_text::Script;
use std::alloc::Global;

// Serves the disks of a script.
fn run_script<I: Images, O: Sink>(alloc: Global, script: &Script, images: &mut I, out: &mut O) -> u8
    requires free { (name : List ℕ) → IsFree (I.at images.old name).place }
    requires lines { planned_lines script.now.disks ≤ most_script_bytes }
    requires fit { AreDisks script.now.disks }
    requires whole { AreWhole script.now.disks }
    requires together { FitTogether script.now.disks }
    ensures done { result ≡ 0 → Served script.now.disks (I.at images.old) (I.at images.new)
        (Appends (O.outlet out.old).wrote (O.outlet out.new).wrote) }
    ensures image { result ≡ 3 → ImageFailed (I.at images.old) (I.at images.new) (O.outlet out.old)
        (O.outlet out.new) script.now.disks }
    ensures lacks { LacksImage script.now.disks (I.at images.old) → (result ≡ 3) ⊎ (result ≡ 6) }
    ensures sink { result ≡ 5 → SinkFailed (I.at images.old) (I.at images.new) (O.outlet out.old)
        (O.outlet out.new) script.now.disks }
    ensures quiet { result ≡ 0 → (O.outlet out.new).faults ≡ (O.outlet out.old).faults }
    ensures memory { result ≡ 6 → ServingRanOut (I.at images.old) (I.at images.new)
        (O.outlet out.old) (O.outlet out.new) script.now.disks }
    ensures few { IsServingStatus result }
    ensures again { (name : List ℕ) → IsFree (I.at images.new name).place }
{
    let plans = script.disks.as_slice();
    let wanted = match wanted_images(alloc, plans) {
        Ok(wanted) => wanted,
        Err(_) => return refuse(Refusal::Memory, "", out),
    };
    match serve(alloc, plans, wanted.as_slice(), images, out) {
        Ok(()) => 0,
        Err(Unserved::Image { place }) => {
            refuse(Refusal::Image, wanted[place].image.as_str(), out)
        }
        Err(Unserved::Memory) => refuse(Refusal::Memory, "", out),
        Err(Unserved::Sink) => 5,
        Err(Unserved::Report) => 6,
    }
}

// Runs a script from its source.
fn run_source<I: Images, R: Source, O: Sink>(
    alloc: Global,
    script: &mut R,
    images: &mut I,
    out: &mut O,
) -> u8
    requires free { (name : List ℕ) → IsFree (I.at images.old name).place }
    ensures done { result ≡ 0 → OfScript (R.left script.old) (R.left script.new)
        (λ plans. Served plans (I.at images.old) (I.at images.new) (Appends (O.outlet out.old).wrote
        (O.outlet out.new).wrote)) }
    ensures script { result ≡ 2 → ScriptRefused (R.left script.old) (R.left script.new)
        (I.at images.old) (I.at images.new) (O.outlet out.old) (O.outlet out.new) }
    ensures script_exactly { IsToldRefused (R.left script.old)
        → (result ≡ 2) ⊎ ((result ≡ 4) ⊎ (result ≡ 6)) }
    ensures image { result ≡ 3 → OfScript (R.left script.old) (R.left script.new) (ImageFailed
        (I.at images.old) (I.at images.new) (O.outlet out.old) (O.outlet out.new)) }
    ensures image_exactly { IsToldLacking (R.left script.old) (I.at images.old)
        → (result ≡ 3) ⊎ ((result ≡ 4) ⊎ (result ≡ 6)) }
    ensures source { result ≡ 4 → Rose (R.faults script.old) (R.faults script.new) }
    ensures source_exactly { (R.faults script.new ≡ R.faults script.old) ⊎ (result ≡ 4) }
    ensures source_line { result ≡ 4 → WritesRefusal (refusal_text Refusal.Source [])
        (I.at images.old) (I.at images.new) (O.outlet out.old) (O.outlet out.new) }
    ensures sink { result ≡ 5 → OfScript (R.left script.old) (R.left script.new) (SinkFailed
        (I.at images.old) (I.at images.new) (O.outlet out.old) (O.outlet out.new)) }
    ensures sink_quiet { result ≡ 0 → (O.outlet out.new).faults ≡ (O.outlet out.old).faults }
    ensures memory { result ≡ 6 → MemoryRanOut (R.left script.old) (R.left script.new)
        (I.at images.old) (I.at images.new) (O.outlet out.old) (O.outlet out.new) }
    ensures memory_source { result ≡ 6 → R.faults script.new ≡ R.faults script.old }
    ensures complete { IsToldServable (R.left script.old) (I.at images.old)
        → IsNoRise (R.faults script.old) (R.faults script.new) → IsNoRise (O.outlet out.old).faults
        (O.outlet out.new).faults
        → ((name : List ℕ) → IsNoRise (I.at images.old name).faults (I.at images.new name).faults)
        → (result ≡ 0) ⊎ (result ≡ 6) }
    ensures few { result ≤ 6 }
    ensures no_words { result ≡ 1 → ⊥ }
    ensures again { (name : List ℕ) → IsFree (I.at images.new name).place }
{
    match read_source(alloc, script) {
        Ok(read) => run_script(alloc, &read, images, out),
        Err(NotRead::Failed) => refuse(Refusal::Source, "", out),
        Err(NotRead::Refused { line, reason }) => {
            refuse(Refusal::Script { line, reason }, "", out)
        }
        Err(NotRead::Memory) => refuse(Refusal::Memory, "", out),
    }
}

/// Runs the words by the table of this version (own profile). `plain` reads a script, takes the images of its disks, runs
/// their lines by the plain schedule, puts the images back, and writes the reports. `gen NUMBER CLIENTS LINES` runs the
/// script that the number makes over an image of zeros in memory, and writes what it did in numbers; the source is then not
/// read, and no image has changed. `probe FILE SIZE` and `paths FILE SIZE` read the partition table of an image, and write it or
/// the device paths of its children; the source is then not read, and no other image has changed (`run_probe` has their
/// statuses). It answers the program's status, and each status with its cause:
///
/// - 0: the reports, the images of the disks and every other image are those of one legal history of each disk, the plain
///   run of its lines; or the summary is that of the plain run.
/// - 1 exactly where the words are in no row, and the source is then not read; 2 where the source was read out and its script
///   is refused; 4 where the source failed: no image has changed.
/// - 3 where an image is missing, shorter than a block, of no whole groups, or failed, and all are then where they were;
///   or where the lines ran and an image could not be put back. The line names the first such image.
/// - 5 where the sink failed: the images are as after 0, and a front of the reports or of the summary was written.
/// - 6 for want of memory: the images are where they were, or as legal histories left them, or could not be put back.
pub fn run_plain<I: Images, R: Source, O: Sink>(
    alloc: Global,
    words: &[String],
    script: &mut R,
    images: &mut I,
    out: &mut O,
) -> u8
    requires free { (name : List ℕ) → IsFree (I.at images.old name).place }
    ensures done { row_of (map string_bytes words.now) ≡ Some Row.Plain → result ≡ 0
        → OfScript (R.left script.old) (R.left script.new) (λ plans. Served plans (I.at images.old)
        (I.at images.new) (Appends (O.outlet out.old).wrote (O.outlet out.new).wrote)) }
    ensures words { result ≡ 1 → row_of (map string_bytes words.now) ≡ None }
    ensures words_exactly { row_of (map string_bytes words.now) ≡ None → result ≡ 1 }
    ensures words_unread { result ≡ 1 → script.new ≡ script.old }
    ensures words_line { result ≡ 1 → WritesRefusal (refusal_text Refusal.Words [])
        (I.at images.old) (I.at images.new) (O.outlet out.old) (O.outlet out.new) }
    ensures script { result ≡ 2 → ScriptRefused (R.left script.old) (R.left script.new)
        (I.at images.old) (I.at images.new) (O.outlet out.old) (O.outlet out.new) }
    ensures script_exactly { row_of (map string_bytes words.now) ≡ Some Row.Plain
        → IsToldRefused (R.left script.old) → (result ≡ 2) ⊎ ((result ≡ 4) ⊎ (result ≡ 6)) }
    ensures image { row_of (map string_bytes words.now) ≡ Some Row.Plain → result ≡ 3
        → OfScript (R.left script.old) (R.left script.new) (ImageFailed (I.at images.old)
        (I.at images.new) (O.outlet out.old) (O.outlet out.new)) }
    ensures image_exactly { row_of (map string_bytes words.now) ≡ Some Row.Plain
        → IsToldLacking (R.left script.old) (I.at images.old)
        → (result ≡ 3) ⊎ ((result ≡ 4) ⊎ (result ≡ 6)) }
    ensures source { result ≡ 4 → Rose (R.faults script.old) (R.faults script.new) }
    ensures source_exactly { (R.faults script.new ≡ R.faults script.old) ⊎ (result ≡ 4) }
    ensures source_line { result ≡ 4 → WritesRefusal (refusal_text Refusal.Source [])
        (I.at images.old) (I.at images.new) (O.outlet out.old) (O.outlet out.new) }
    ensures sink { row_of (map string_bytes words.now) ≡ Some Row.Plain → result ≡ 5
        → OfScript (R.left script.old) (R.left script.new) (SinkFailed (I.at images.old)
        (I.at images.new) (O.outlet out.old) (O.outlet out.new)) }
    ensures sink_quiet { result ≡ 0 → (O.outlet out.new).faults ≡ (O.outlet out.old).faults }
    ensures memory { row_of (map string_bytes words.now) ≡ Some Row.Plain → result ≡ 6
        → MemoryRanOut (R.left script.old) (R.left script.new) (I.at images.old) (I.at images.new)
        (O.outlet out.old) (O.outlet out.new) }
    ensures memory_words { result ≡ 6 → IsSome (row_of (map string_bytes words.now)) }
    ensures memory_source { result ≡ 6 → R.faults script.new ≡ R.faults script.old }
    ensures complete { row_of (map string_bytes words.now) ≡ Some Row.Plain → IsToldServable
        (R.left script.old) (I.at images.old)
        → IsNoRise (R.faults script.old) (R.faults script.new) → IsNoRise (O.outlet out.old).faults
        (O.outlet out.new).faults
        → ((name : List ℕ) → IsNoRise (I.at images.old name).faults (I.at images.new name).faults)
        → (result ≡ 0) ⊎ (result ≡ 6) }
    ensures generated { IfGenerated (row_of (map string_bytes words.now))
        (λ number clients lines. Generates number clients lines result (O.outlet out.old)
        (O.outlet out.new)) }
    ensures generated_alone { IfGenerated (row_of (map string_bytes words.now))
        (λ number clients lines. (script.new ≡ script.old) × (I.at images.new ≡ I.at images.old)) }
    ensures probes { IfProbe (row_of (map string_bytes words.now)) (λ what name size.
        ListsImage what name size result (I.at images.old name) (I.at images.new name)
        (O.outlet out.old) (O.outlet out.new)) }
    ensures probes_alone { IfProbe (row_of (map string_bytes words.now)) (λ what name size.
        (script.new ≡ script.old) × ChangesOnly name (I.at images.old) (I.at images.new)) }
    ensures few { result ≤ 6 }
    ensures again { (name : List ℕ) → IsFree (I.at images.new name).place }
{
    match row_of(alloc, words) {
        Ok(Some(Row::Plain)) => run_source(alloc, script, images, out),
        Ok(Some(Row::Probe { file, size })) => {
            run_probe(alloc, Listing::Table, file, size, images, out)
        }
        Ok(Some(Row::Paths { file, size })) => {
            run_probe(alloc, Listing::Paths, file, size, images, out)
        }
        Ok(
            Some(
                Row::Generated {
                    number,
                    clients,
                    lines,
                },
            ),
        ) => run_generated(alloc, number, clients, lines, out),
        Ok(None) => refuse(Refusal::Words, "", out),
        Err(_) => refuse(Refusal::Memory, "", out),
    }
}
