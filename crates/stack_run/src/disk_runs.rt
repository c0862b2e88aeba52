ghost use Rattle.std.specs.Prelude.{◌≡◌, ◌≤◌, ◌+◌, ◌++◌, [], None, All, map, take, drop, vec_len, vec_capacity, length, IfOk, IfSome, OnErr};
ghost use Rattle.script_text.specs.Fitting.{IsDiskPlan, AreDisks};
ghost use Rattle.script_text.specs.Limits.{most_script_bytes};
ghost use Rattle.script_text.specs.Planned.{disk_lines, planned_lines};
ghost use Rattle.stack_run.specs.Media.{wanted_of};
ghost use Rattle.stack_run.specs.Chains.{AreMade, IsMediumOf};
ghost use Rattle.stack_run.specs.Runs.{RanDisk, RanSome, RanAll, RunsStop};
ghost use Rattle.stack_run.specs.Starting.{part_line, AreWhole};

use crate::desk_run::{Run, run_desk};
use disk_core::{Disk, NotMade};
use drive::Drive;
use medium::Medium;
use script_text::DiskPlan;
use std::alloc::{AllocError, Global};

// Runs the lines of a disk over its media, and gives them back. None is want of memory.
fn run_disk<M: Medium>(alloc: Global, plan: &DiskPlan, media: Vec<M>) -> (Vec<M>, Option<Run>)
    requires disk { IsDiskPlan plan.now }
    requires lines { disk_lines plan.now ≤ most_script_bytes }
    requires count { length media.items ≡ length plan.now.spares + 1 }
    requires made { All (λ m. IsMediumOf plan.now (M.device m)) media.items }
    requires whole { part_line plan.now ≡ None }
    ensures over { IfSome result.1 (λ run. RanDisk plan.now (map M.device media.items)
        (map M.device result.0.items) run) }
    ensures some { result.1 ≡ None → RanSome plan.now (map M.device media.items)
        (map M.device result.0.items) }
    ensures back { length result.0.items ≡ length media.items }
{
    let drive = Drive::make(media, plan.cached, plan.protected, plan.physical);
    match Disk::make(alloc, drive, 1) {
        Ok(disk) => run_desk(alloc, plan, disk, None),
        Err(NotMade { drive }) => (drive.into_media(), None),
    }
}

// Cuts so many media off the front. The error is want of memory, and nothing has then changed.
fn cut_front<M>(alloc: Global, media: &mut Vec<M>, count: usize) -> Result<Vec<M>, AllocError>
    requires { count ≤ length media.old.items }
    ensures front { IfOk result (λ front. front.items ≡ take count media.old.items) }
    ensures rest { IfOk result (λ _. media.new.items ≡ drop count media.old.items) }
    ensures room { vec_capacity media.new ≡ vec_capacity media.old }
    ensures same { OnErr result (media.new.items ≡ media.old.items) }
{
    let mut front = Vec::with_capacity(alloc, count)?;
    while front.len() < count {
        let medium = media.remove(0);
        front.push_reserved(medium);
    }
    Ok(front)
}

// Adds media at the end, for which there is room.
fn add_back<M>(all: &mut Vec<M>, mut more: Vec<M>)
    requires { vec_len all.old + vec_len more ≤ vec_capacity all.old }
    ensures items { all.new.items ≡ all.old.items ++ more.items }
    ensures room { vec_capacity all.old ≤ vec_capacity all.new }
{
    match all.append(&mut more) {
        Ok(()) => more.destroy_empty(),
        Err(_) => unreachable!(),
    }
}

// Runs the lines of all disks over their media, disk by disk, and gives the media back in their order. None is want of
// memory: the first disks ran to their end, and the next one not.
pub fn run_disks<M: Medium>(
    alloc: Global,
    plans: &[DiskPlan],
    mut media: Vec<M>,
) -> (Vec<M>, Option<Vec<Run>>)
    requires disks { AreDisks plans.now }
    requires whole { AreWhole plans.now }
    requires lines { planned_lines plans.now ≤ most_script_bytes }
    requires made { AreMade (wanted_of plans.now) (map M.device media.items) }
    ensures over { IfSome result.1 (λ runs. RanAll plans.now (map M.device media.items)
        (map M.device result.0.items) runs.items) }
    ensures some { result.1 ≡ None → RunsStop plans.now (map M.device media.items)
        (map M.device result.0.items) }
    ensures back { length result.0.items ≡ length media.items }
{
    let mut runs = match Vec::with_capacity(alloc, plans.len()) {
        Ok(runs) => runs,
        Err(_) => return (media, None),
    };
    let mut done = match Vec::with_capacity(alloc, media.len()) {
        Ok(done) => done,
        Err(_) => return (media, None),
    };
    for plan in plans {
        let own = match cut_front(alloc, &mut media, plan.spares.as_slice().len() + 1) {
            Ok(own) => own,
            Err(_) => {
                add_back(&mut done, media);
                return (done, None);
            }
        };
        let (own, run) = run_disk(alloc, plan, own);
        add_back(&mut done, own);
        match run {
            Some(run) => runs.push_reserved(run),
            None => {
                add_back(&mut done, media);
                return (done, None);
            }
        }
    }
    media.destroy_empty();
    (done, Some(runs))
}
