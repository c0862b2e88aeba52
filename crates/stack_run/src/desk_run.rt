ghost use Rattle.std.specs.Prelude.{◌≡◌, ◌≤◌, ◌<◌, ◌^◌, ◌+◌, [], None, map, length, vec_capacity, IfOk, IfSome};
ghost use Rattle.shared_disk.specs.Lines.{roles_of};
ghost use Rattle.script_text.specs.Fitting.{IsDiskPlan};
ghost use Rattle.script_text.specs.Limits.{most_script_bytes};
ghost use Rattle.script_text.specs.Planned.{disk_lines};
ghost use Rattle.stack_run.specs.Clients.{script_roles};
ghost use Rattle.stack_run.specs.Parts.{children_of};
ghost use Rattle.stack_run.specs.Starting.{IsReady, start_of};
ghost use Rattle.stack_run.specs.Runs.{RanOver, RanSomeOver};

use crate::clients::{clients_in, count_lines};
use crate::end_lines::fill_lines;
use crate::parts::children_of;
use device_workers::plain;
use disk_core::Disk;
use history::History;
use medium::Medium;
use partition_tables::{Child, Table};
use script_text::{DiskPlan, TokenLine};
use shared_disk::{Client, Desk, DeskRefused};
use std::alloc::{AllocError, Global};

// What a disk did: its partition table where it was probed, the blocks of its media, its history, and how its tokens ended.
#[derive(Drop)]
pub struct Run {
    pub table: Option<Table>,
    pub blocks: Vec<u64>,
    pub history: History,
    pub ends: Vec<TokenLine>,
}

// What a run wants of memory beside its lines, taken before the first of them: its clients, and room for what it tells.
#[derive(Drop)]
struct Supplies {
    clients: Vec<Client>,
    blocks: Vec<u64>,
    ends: Vec<TokenLine>,
}

// The supplies of the run of a disk with these children, whose history has so many entries. The error is want of memory.
fn supplies_for(
    alloc: Global,
    plan: &DiskPlan,
    children: &[Child],
    entries: usize,
) -> Result<Supplies, AllocError>
    requires lines { disk_lines plan.now ≤ most_script_bytes }
    requires few { entries < 2 ^ 63 }
    ensures clients { IfOk result (λ all. roles_of all.clients.items
        ≡ script_roles plan.now.size children.now plan.now.clients) }
    ensures no_blocks { IfOk result (λ all. all.blocks.items ≡ []) }
    ensures media { IfOk result (λ all. length plan.now.spares + 1 ≤ vec_capacity all.blocks) }
    ensures no_ends { IfOk result (λ all. all.ends.items ≡ []) }
    ensures tokens { IfOk result (λ all. entries + disk_lines plan.now ≤ vec_capacity all.ends) }
{
    let plans = plan.clients.as_slice();
    let clients = clients_in(alloc, children, plan.size, plans)?;
    let blocks = Vec::with_capacity(alloc, plan.spares.as_slice().len() + 1)?;
    let ends = Vec::with_capacity(alloc, entries + count_lines(plans))?;
    Ok(Supplies {
        clients,
        blocks,
        ends,
    })
}

// Adds how many blocks each medium has, for which there is room.
fn fill_blocks<M: Medium>(media: &[M], blocks: &mut Vec<u64>)
    requires empty { blocks.old.items ≡ [] }
    requires room { length media.now ≤ vec_capacity blocks.old }
    ensures { blocks.new.items ≡ map (λ m. (M.device m).blocks) media.now }
{
    for medium in media {
        blocks.push_reserved(medium.blocks());
    }
}

// Runs the lines of a disk's clients over a disk that is ready by the plain schedule, and gives the media back. None is want
// of memory: nothing was done, or a client's next line wants memory. Behind the last line none is wanted.
pub fn run_desk<M: Medium>(
    alloc: Global,
    plan: &DiskPlan,
    disk: Disk<M>,
    table: Option<Table>,
) -> (Vec<M>, Option<Run>)
    requires disk { IsDiskPlan plan.now }
    requires lines { disk_lines plan.now ≤ most_script_bytes }
    requires ready { IsReady plan.now disk table }
    ensures over { IfSome result.1 (λ run. RanOver plan.now disk.setup (start_of disk table)
        (map M.device result.0.items) run) }
    ensures table { IfSome result.1 (λ run. run.table ≡ table) }
    ensures some { result.1 ≡ None → RanSomeOver plan.now disk.setup (start_of disk table)
        (map M.device result.0.items) }
    ensures back { length result.0.items ≡ length disk.setup.media }
{
    let entries = disk.history().entries().len();
    let Supplies {
        clients,
        mut blocks,
        mut ends,
    } = match supplies_for(alloc, plan, children_of(&table), entries) {
        Ok(supplies) => supplies,
        Err(_) => {
            let (media, _) = disk.into_media();
            return (media, None);
        }
    };
    let mut desk = match Desk::make(alloc, disk, clients) {
        Ok(desk) => desk,
        Err(DeskRefused { disk, .. }) => {
            let (media, _) = disk.into_media();
            return (media, None);
        }
    };
    let ran = plain(&mut desk);
    let (disk, slots) = desk.into_parts();
    let (media, history) = disk.into_media();
    match ran {
        Ok(()) => {
            fill_blocks(media.as_slice(), &mut blocks);
            fill_lines(&history, slots, &mut ends);
            (
                media,
                Some(Run {
                    table,
                    blocks,
                    history,
                    ends,
                }),
            )
        }
        Err(_) => (media, None),
    }
}
