ghost use Rattle.std.specs.Prelude.{◌≡◌, ◌≤◌, ℕ, List, if◌then◌else◌, IfOk, IfErr, IsErr, OnOk};
ghost use Rattle.image_store.specs.Edge.{Appends};
ghost use Rattle.image_store.specs.Place.{IsFree};
ghost use Rattle.script_text.specs.Fitting.{AreDisks, FitTogether, images_of};
ghost use Rattle.script_text.specs.Limits.{most_script_bytes};
ghost use Rattle.script_text.specs.Planned.{planned_lines};
ghost use Rattle.stack_run.specs.Media.{wanted_of, ChangesAmong};
ghost use Rattle.stack_run.specs.Serving.{Served, LacksImage};
ghost use Rattle.stack_run.specs.Stages.{AllRan, RunStops};
ghost use Rattle.stack_run.specs.Starting.{AreWhole};
ghost use Rattle.stack_run.specs.Program.{ServingFails, IsImageStop};

use crate::desk_run::Run;
use crate::disk_runs::run_disks;
use crate::putting::{put_images, put_rest};
use crate::refusal::{NotRun, Stopped, Unserved};
use crate::reporting::write_reports;
use crate::taking::take_images;
use crate::wanted::Wanted;
use image_store::{Images, Sink};
use script_text::{DiskPlan, ReportFault};
use std::alloc::Global;

// The same stop, or one for want of memory.
fn spent_or(spent: bool, stop: Stopped) -> Stopped
    ensures place { result.place ≡ stop.place }
    ensures fault { result.fault ≡ (if spent then NotRun.Memory else stop.fault) }
{
    let fault = if spent { NotRun::Memory } else { stop.fault };
    Stopped {
        place: stop.place,
        fault,
    }
}

// Takes all images, runs the lines of all disks over their media, and puts all images back.
fn run_images<I: Images>(
    alloc: Global,
    plans: &[DiskPlan],
    wanted: &[Wanted],
    images: &mut I,
) -> Result<Vec<Run>, Stopped>
    requires wanted { wanted.now ≡ wanted_of plans.now }
    requires disks { AreDisks plans.now }
    requires whole { AreWhole plans.now }
    requires lines { planned_lines plans.now ≤ most_script_bytes }
    requires together { FitTogether plans.now }
    requires free { (name : List ℕ) → IsFree (I.at images.old name).place }
    ensures ran { IfOk result (λ runs. AllRan plans.now (I.at images.old)
        (I.at images.new) runs.items) }
    ensures stops { IfErr result (λ stop. RunStops stop.fault plans.now wanted.now stop.place
        (I.at images.old) (I.at images.new)) }
    ensures lacks { LacksImage plans.now (I.at images.old) → IsErr result }
    ensures others { ChangesAmong (images_of plans.now) (I.at images.old) (I.at images.new) }
    ensures again { (name : List ℕ) → IsFree (I.at images.new name).place }
{
    let mut media = match Vec::with_capacity(alloc, wanted.len()) {
        Ok(media) => media,
        Err(_) => {
            return Err(Stopped {
                place: 0,
                fault: NotRun::Memory,
            });
        }
    };
    match take_images(alloc, wanted, images, &mut media) {
        Ok(()) => {}
        Err(stop) => {
            let spent = put_rest(alloc, &wanted[..stop.place], images, media);
            return Err(spent_or(spent, stop));
        }
    }
    let (media, ran) = run_disks(alloc, plans, media);
    match ran {
        Some(runs) => match put_images(alloc, wanted, images, media) {
            Ok(()) => Ok(runs),
            Err(stop) => Err(stop),
        },
        None => {
            put_rest(alloc, wanted, images, media);
            Err(Stopped {
                place: 0,
                fault: NotRun::Memory,
            })
        }
    }
}

// Runs the lines of all disks over their images by the plain schedule, puts the images back, and writes the reports.
pub fn serve<I: Images, O: Sink>(
    alloc: Global,
    plans: &[DiskPlan],
    wanted: &[Wanted],
    images: &mut I,
    out: &mut O,
) -> Result<(), Unserved>
    requires wanted { wanted.now ≡ wanted_of plans.now }
    requires disks { AreDisks plans.now }
    requires whole { AreWhole plans.now }
    requires lines { planned_lines plans.now ≤ most_script_bytes }
    requires together { FitTogether plans.now }
    requires free { (name : List ℕ) → IsFree (I.at images.old name).place }
    ensures served { OnOk result (Served plans.now (I.at images.old) (I.at images.new) (Appends
        (O.outlet out.old).wrote (O.outlet out.new).wrote)) }
    ensures quiet { OnOk result ((O.outlet out.new).faults ≡ (O.outlet out.old).faults) }
    ensures fails { IfErr result (λ fault. ServingFails fault plans.now wanted.now
        (I.at images.old) (I.at images.new) (O.outlet out.old) (O.outlet out.new)) }
    ensures lacks { LacksImage plans.now (I.at images.old) → IsImageStop result }
    ensures again { (name : List ℕ) → IsFree (I.at images.new name).place }
{
    let runs = match run_images(alloc, plans, wanted, images) {
        Ok(runs) => runs,
        Err(
            Stopped {
                place,
                fault: NotRun::Image,
            },
        ) => return Err(Unserved::Image { place }),
        Err(
            Stopped {
                fault: NotRun::Memory,
                ..
            },
        ) => return Err(Unserved::Memory),
    };
    match write_reports(alloc, plans, runs.as_slice(), out) {
        Ok(()) => Ok(()),
        Err(ReportFault::Failed) => Err(Unserved::Sink),
        Err(ReportFault::Memory) => Err(Unserved::Report),
    }
}
