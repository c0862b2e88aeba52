ghost use Rattle.std.specs.Prelude.{◌≡◌, ℕ, ◌*◌, ◌+◌, ◌^◌, ◌<◌, ◌≤◌, ◌++◌, ◌∷◌, [], length, IfOk, OnOk};
ghost use Rattle.std.specs.List.{AllByRecursion};
ghost use Rattle.image_store.specs.Edge.{HasCauseOf, PutsText};
ghost use Rattle.stack_run.specs.Media.{media_names};
ghost use Rattle.stack_run.specs.Serving.{kept_media, table_lines};
ghost use Rattle.stack_run.specs.Reporting.{name_at, IsReportable, AreReportable, TellsDisk, TellsDisks};

use crate::desk_run::Run;
use image_store::Sink;
use partition_tables::Table;
use script_text::{
    DiskPlan, KeptMedium, Name, ReportFault, report_body, report_head, report_table,
};
use std::alloc::{AllocError, Global};

// The name of the medium at a place, from 0.
fn name_of(plan: &DiskPlan, place: usize) -> &str
    requires { place ≤ length plan.now.spares }
    ensures { result.now ≡ name_at plan.now place }
{
    match place.checked_sub(1) {
        Some(spare) => plan.spares.as_slice()[spare].as_str(),
        None => plan.image.as_str(),
    }
}

// Adds a medium that has so many blocks to those of the report. The error is want of memory.
fn add_kept(
    alloc: Global,
    plan: &DiskPlan,
    place: usize,
    count: u64,
    media: &mut Vec<KeptMedium>,
) -> Result<(), AllocError>
    requires place { place ≤ length plan.now.spares }
    requires fits { count * plan.now.size < 2 ^ 64 }
    ensures { OnOk result (media.new.items ≡ media.old.items ++ record
        { name = name_at plan.now place; bytes = count * plan.now.size } ∷ []) }
{
    let name = Name::copy_of(alloc, name_of(plan, place))?;
    let bytes = count * u64::from(plan.size);
    media.push(KeptMedium { name, bytes })?;
    Ok(())
}

// The media of the report. The error is want of memory.
fn kept_of(alloc: Global, plan: &DiskPlan, blocks: &[u64]) -> Result<Vec<KeptMedium>, AllocError>
    requires count { length blocks.now ≡ length plan.now.spares + 1 }
    requires fits { AllByRecursion (λ b. b * plan.now.size < 2 ^ 64) blocks.now }
    ensures { IfOk result (λ media. media.items ≡ kept_media plan.now.size
        (media_names plan.now) blocks.now) }
{
    let mut media = Vec::new(alloc);
    for (place, count) in blocks.iter().enumerate() {
        add_kept(alloc, plan, place, *count, &mut media)?;
    }
    Ok(media)
}

// Writes the lines of a table, where a disk was probed.
fn write_table<O: Sink>(
    alloc: Global,
    table: &Option<Table>,
    out: &mut O,
) -> Result<(), ReportFault>
    ensures text { PutsText (O.outlet out.old).wrote (O.outlet out.new).wrote result
        (table_lines table.now) }
    ensures cause { HasCauseOf ReportFault.Failed (O.outlet out.old).faults
        (O.outlet out.new).faults result }
{
    match table {
        None => Ok(()),
        Some(table) => report_table(alloc, table, out),
    }
}

// Writes the report of a disk with this number.
fn write_report<O: Sink>(
    alloc: Global,
    number: u32,
    plan: &DiskPlan,
    run: &Run,
    out: &mut O,
) -> Result<(), ReportFault>
    requires run { IsReportable plan.now run.now }
    ensures text { TellsDisk number plan.now run.now (PutsText (O.outlet out.old).wrote
        (O.outlet out.new).wrote result) }
    ensures cause { HasCauseOf ReportFault.Failed (O.outlet out.old).faults (O.outlet out.new).faults result }
{
    let blocks = run.blocks.as_slice();
    let media = match kept_of(alloc, plan, blocks) {
        Ok(media) => media,
        Err(_) => return Err(ReportFault::Memory),
    };
    let first = blocks[0];
    match report_head(alloc, number, plan, first, out) {
        Ok(()) => {}
        Err(fault) => return Err(fault),
    }
    match write_table(alloc, &run.table, out) {
        Ok(()) => {}
        Err(fault) => return Err(fault),
    }
    report_body(alloc, plan.physical, &run.history, &run.ends, &media, out)
}

// Writes the reports of all disks in order, numbered from 1.
pub fn write_reports<O: Sink>(
    alloc: Global,
    plans: &[DiskPlan],
    runs: &[Run],
    out: &mut O,
) -> Result<(), ReportFault>
    requires few { length plans.now ≤ 16 }
    requires runs { AreReportable plans.now runs.now }
    ensures text { TellsDisks plans.now runs.now (PutsText (O.outlet out.old).wrote
        (O.outlet out.new).wrote result) }
    ensures cause { HasCauseOf ReportFault.Failed (O.outlet out.old).faults (O.outlet out.new).faults result }
{
    for (place, plan) in plans.iter().enumerate() {
        match write_report(alloc, place as u32 + 1, plan, &runs[place], out) {
            Ok(()) => {}
            Err(fault) => return Err(fault),
        }
    }
    Ok(())
}
