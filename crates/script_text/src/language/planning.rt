ghost use Rattle.std.specs.Prelude.{◌≡◌};
ghost use Rattle.medium.specs.Device.{is_block_size};
ghost use Rattle.script_text.specs.Replies.{Says};
ghost use Rattle.script_text.specs.Planned.{is_group_size, is_new_name, planned_disk, planned_spare, planned_client, planned_order, plans_behind};
ghost use Rattle.script_text.specs.Whole.{line_says, planned_if};

use crate::language::draft::{Draft, bytes_of};
use crate::language::forms;
use crate::language::limits::{NAME_BYTES, WORKERS};
use crate::language::line::{Flags, Line};
use crate::language::names::{Items, Name};
use crate::language::plans::{ClientPlan, DiskPlan};
use crate::language::refusal::{LineRefused, Reason};
use history::Order;
use std::alloc::Global;

/// Adds what the line of this number says.
#[tactic(auto, unfolding(crate::specs::Whole::line_says))]
pub fn take_line(
    alloc: Global,
    draft: Draft,
    number: u64,
    line: &[u8],
) -> Result<Draft, LineRefused>
    ensures { Says (line_says number draft line.now) result }
{
    match forms::read_line(alloc, line) {
        Ok(Some(said)) => plan_line(alloc, draft, number, said),
        Ok(None) => Ok(draft),
        Err(refused) => Err(refused),
    }
}

#[tactic(auto, unfolding(crate::specs::Planned::plans_behind))]
fn plan_line(alloc: Global, draft: Draft, number: u64, line: Line) -> Result<Draft, LineRefused>
    ensures { Says (plans_behind number draft line) result }
{
    match line {
        Line::Disk {
            image,
            size,
            workers,
            flags,
        } => plan_disk(alloc, draft, image, size, workers, flags),
        Line::Spare { image } => plan_spare(alloc, draft, image),
        Line::Client { part } => plan_client(alloc, draft, number, part),
        Line::Asks { order, mark } => plan_order(draft, order, mark),
    }
}

fn is_new_name(draft: &Draft, image: &str) -> bool
    ensures { result ≡ is_new_name image.now draft.now }
{
    image.len() as u64 <= NAME_BYTES && !draft.has_image(image)
}

fn is_block_size(size: u64) -> bool
    ensures { result ≡ is_block_size size }
{
    size == 512 || size == 1024 || size == 2048 || size == 4096
}

fn is_group_size(blocks: u32) -> bool
    ensures { result ≡ is_group_size blocks }
{
    blocks == 1 || blocks == 2 || blocks == 4 || blocks == 8
}

#[tactic(auto, unfolding(crate::specs::Planned::planned_disk))]
fn plan_disk(
    alloc: Global,
    draft: Draft,
    image: Name,
    size: u64,
    workers: u64,
    flags: Flags,
) -> Result<Draft, LineRefused>
    ensures { Says (planned_disk draft image size workers flags) result }
{
    if !is_new_name(&draft, image.as_str()) {
        return Err(LineRefused::Faulty(Reason::Name));
    }
    if !is_block_size(size)
        || workers == 0
        || workers > WORKERS
        || !is_group_size(flags.physical)
        || !draft.has_disk_room()
    {
        return Err(LineRefused::Faulty(Reason::Limit));
    }
    let disk = DiskPlan {
        image,
        size: size as u32,
        workers: workers as u32,
        cached: flags.cached,
        protected: flags.protected,
        physical: flags.physical,
        spares: Items::from_vec(Vec::new(alloc)),
        clients: Items::from_vec(Vec::new(alloc)),
    };
    Ok(draft.add_disk(alloc, disk)?)
}

#[tactic(auto, unfolding(crate::specs::Planned::planned_spare))]
fn plan_spare(alloc: Global, draft: Draft, image: Name) -> Result<Draft, LineRefused>
    ensures { Says (planned_spare draft image) result }
{
    if !draft.has_disk() || draft.has_client() {
        return Err(LineRefused::Faulty(Reason::Order));
    }
    if !is_new_name(&draft, image.as_str()) {
        return Err(LineRefused::Faulty(Reason::Name));
    }
    if !draft.has_medium_room() {
        return Err(LineRefused::Faulty(Reason::Limit));
    }
    Ok(draft.add_spare(alloc, image)?)
}

#[tactic(auto, unfolding(crate::specs::Planned::planned_client))]
fn plan_client(
    alloc: Global,
    draft: Draft,
    number: u64,
    part: Option<u32>,
) -> Result<Draft, LineRefused>
    ensures { Says (planned_client number draft part) result }
{
    if !draft.has_disk() {
        return Err(LineRefused::Faulty(Reason::Order));
    }
    if !draft.has_client_room() {
        return Err(LineRefused::Faulty(Reason::Limit));
    }
    let client = ClientPlan {
        part,
        line: number,
        orders: Items::from_vec(Vec::new(alloc)),
    };
    Ok(draft.add_client(client)?)
}

#[tactic(auto, unfolding(crate::specs::Planned::planned_order))]
fn plan_order(draft: Draft, order: Order, mark: Option<u32>) -> Result<Draft, LineRefused>
    ensures { Says (planned_order draft order mark) result }
{
    if !draft.has_client() {
        return Err(LineRefused::Faulty(Reason::Order));
    }
    if !draft.takes_mark(mark) {
        return Err(LineRefused::Faulty(Reason::Medium));
    }
    if !draft.has_room(bytes_of(&order)) {
        return Err(LineRefused::Faulty(Reason::Limit));
    }
    Ok(draft.add_order(order)?)
}
