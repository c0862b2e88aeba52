ghost use Rattle.std.specs.Prelude.{◌≡◌, ℕ, ◌+◌, ◌≤◌, ◌<◌, List, ◌∷◌, ◌++◌, true, length, [], OnOk, IfOk, nat_lt};
ghost use Rattle.script_text.specs.Limits.{most_requested_bytes, most_disks};
ghost use Rattle.script_text.specs.Last.{has_some, on_last};
ghost use Rattle.script_text.specs.Taken.{FindsImages};
ghost use Rattle.script_text.specs.Planned.{add_spare, add_client, add_last_order, has_client, has_image, has_medium_room, has_client_room, has_room, is_well_aimed, takes_mark, total_asked_bytes, asked_bytes};

use crate::language::limits::{ALL_REQUEST_BYTES, CLIENTS, DISKS, MEDIA, REQUEST_BYTES};
use crate::language::line::Flags;
use crate::language::names::{Items, Name};
use crate::language::plans::{ClientPlan, DiskPlan, Script};
use history::Order;
use std::alloc::{AllocError, Global};
use std::collections::BTreeSet;
use std::marker::Model;

/// The disks that were planned so far, with the bytes that their lines ask for in sum and the names of all images.
#[derive(Drop)]
pub struct Draft {
    disks: Vec<DiskPlan>,
    bytes: u64,
    names: BTreeSet<String>,
}

impl Model for Draft {
    ghost use Rattle.std.specs.Prelude.{◌≡◌, ◌≤◌, List};
    ghost use Rattle.script_text.specs.declared.language.plans.DiskPlan.{DiskPlan};
    ghost use Rattle.script_text.specs.Limits.{most_requested_bytes};
    ghost use Rattle.script_text.specs.Planned.{total_asked_bytes};
    ghost use Rattle.script_text.specs.Fitting.{images_of};
    ghost use Rattle.script_text.specs.Taken.{FindsImages};

    ghost Value = { List DiskPlan };

    ghost view = { λ draft. draft.disks.items };

    ghost invariant = { λ draft. (draft.bytes ≡ total_asked_bytes draft.disks.items)
        × (draft.bytes ≤ most_requested_bytes)
        × FindsImages draft.names (images_of draft.disks.items) };
}

impl Draft {
    /// No disk yet.
    #[tactic(auto, using(crate::proofs::PlannedSums::requested_none, crate::proofs::Images::none_taken))]
    pub fn make(alloc: Global) -> Draft
        ensures { result ≡ [] }
    {
        Draft {
            disks: Vec::new(alloc),
            bytes: 0,
            names: BTreeSet::new(alloc),
        }
    }

    /// The script of these plans.
    pub fn into_script(self) -> Script
        ensures { result.disks ≡ self }
    {
        let Draft { disks, .. } = self;
        Script {
            disks: Items::from_vec(disks),
        }
    }

    pub fn has_disk(&self) -> bool
        ensures { result ≡ has_some self.now }
    {
        !self.disks.is_empty()
    }

    #[tactic(auto, using(crate::proofs::LastLemmas::last_from_get, crate::proofs::LastLemmas::no_last, crate::proofs::LastLemmas::some_is))]
    pub fn has_client(&self) -> bool
        ensures { result ≡ has_client self.now }
    {
        match self.disks.last() {
            Some(disk) => !disk.clients.as_slice().is_empty(),
            None => false,
        }
    }

    pub fn has_image(&self, image: &str) -> bool
        ensures { result ≡ has_image image.now self.now }
    {
        self.names.contains(image)
    }

    pub fn has_disk_room(&self) -> bool
        ensures { result ≡ nat_lt (length self.now) most_disks }
    {
        (self.disks.len() as u64) < DISKS
    }

    #[tactic(auto, using(crate::proofs::LastLemmas::last_from_get, crate::proofs::LastLemmas::no_last))]
    pub fn has_medium_room(&self) -> bool
        ensures { result ≡ has_medium_room self.now }
    {
        match self.disks.last() {
            Some(disk) => (disk.spares.as_slice().len() as u64) < MEDIA - 1,
            None => false,
        }
    }

    #[tactic(auto, using(crate::proofs::LastLemmas::last_from_get, crate::proofs::LastLemmas::no_last))]
    pub fn has_client_room(&self) -> bool
        ensures { result ≡ has_client_room self.now }
    {
        match self.disks.last() {
            Some(disk) => (disk.clients.as_slice().len() as u64) < CLIENTS,
            None => false,
        }
    }

    /// Whether a last word that names this medium may stand in a line of the last client.
    #[tactic(auto, using(crate::proofs::LastLemmas::last_from_get, crate::proofs::LastLemmas::no_last))]
    pub fn takes_mark(&self, mark: Option<u32>) -> bool
        ensures { result ≡ is_well_aimed self.now mark }
    {
        match mark {
            None => true,
            Some(medium) => match self.disks.last() {
                Some(disk) => takes_mark(disk, medium),
                None => false,
            },
        }
    }

    pub fn has_room(&self, bytes: u64) -> bool
        ensures { result ≡ has_room self.now bytes }
    {
        bytes <= REQUEST_BYTES && self.bytes + bytes <= ALL_REQUEST_BYTES
    }

    /// Adds a disk without spares and clients. The error is want of memory.
    #[tactic(auto, using(crate::proofs::PlannedSums::requested_disk, crate::proofs::Images::taken_disk))]
    pub fn add_disk(self, alloc: Global, disk: DiskPlan) -> Result<Draft, AllocError>
        requires clients { disk.clients ≡ [] }
        requires spares { disk.spares ≡ [] }
        ensures { IfOk result (λ next. next ≡ self ++ disk ∷ []) }
    {
        let Draft {
            mut disks,
            bytes,
            mut names,
        } = self;
        take_name(alloc, &mut names, disk.image.as_str())?;
        disks.push(disk)?;
        Ok(Draft {
            disks,
            bytes,
            names,
        })
    }

    /// Adds a medium to the last disk. The error is want of memory.
    #[tactic(auto, using(crate::proofs::PlannedSums::requested_spare, crate::proofs::Images::taken_spare))]
    pub fn add_spare(self, alloc: Global, image: Name) -> Result<Draft, AllocError>
        requires { has_some self ≡ true }
        ensures { IfOk result (λ next. next ≡ on_last (add_spare image) self) }
    {
        let Draft {
            mut disks,
            bytes,
            mut names,
        } = self;
        take_name(alloc, &mut names, image.as_str())?;
        spare_to_last(&mut disks, image)?;
        Ok(Draft {
            disks,
            bytes,
            names,
        })
    }

    /// Adds a client without lines to the last disk. The error is want of memory.
    #[tactic(auto, using(crate::proofs::PlannedSums::requested_client, crate::proofs::Images::taken_client))]
    pub fn add_client(self, client: ClientPlan) -> Result<Draft, AllocError>
        requires some { has_some self ≡ true }
        requires none { client.orders ≡ [] }
        ensures { IfOk result (λ next. next ≡ on_last (add_client client) self) }
    {
        let Draft {
            mut disks,
            bytes,
            names,
        } = self;
        client_to_last(&mut disks, client)?;
        Ok(Draft {
            disks,
            bytes,
            names,
        })
    }

    /// Adds a line to the last client of the last disk. The error is want of memory.
    #[tactic(auto, using(crate::proofs::PlannedSums::requested_order, crate::proofs::Images::taken_order))]
    pub fn add_order(self, order: Order) -> Result<Draft, AllocError>
        requires client { has_client self ≡ true }
        requires room { total_asked_bytes self + asked_bytes order ≤ most_requested_bytes }
        ensures { IfOk result (λ next. next ≡ on_last (add_last_order order) self) }
    {
        let Draft {
            mut disks,
            bytes,
            names,
        } = self;
        let more = bytes_of(&order);
        order_to_last(&mut disks, order)?;
        Ok(Draft {
            disks,
            bytes: bytes + more,
            names,
        })
    }
}

#[tactic(auto, using(crate::proofs::LastLemmas::last_from_get, crate::proofs::LastLemmas::no_last))]
fn takes_mark(disk: &DiskPlan, medium: u32) -> bool
    ensures { result ≡ takes_mark medium disk.now }
{
    let is_whole = match disk.clients.as_slice().last() {
        Some(client) => client.part.is_none(),
        None => false,
    };
    is_whole && medium >= 1 && u64::from(medium) <= disk.spares.as_slice().len() as u64 + 1
}

// Adds the name of an image. The error is want of memory.
fn take_name(alloc: Global, names: &mut BTreeSet<String>, image: &str) -> Result<(), AllocError>
    ensures { OnOk result ((images : List (List ℕ)) → FindsImages names.old images
        → FindsImages names.new (images ++ image.now ∷ [])) }
{
    let name = String::from_str(alloc, image)?;
    names.insert(name)?;
    Ok(())
}

#[tactic(auto, using(crate::proofs::LastLemmas::some_length))]
fn spare_to_last(disks: &mut Vec<DiskPlan>, image: Name) -> Result<(), AllocError>
    requires { has_some disks.old.items ≡ true }
    ensures { OnOk result (disks.new.items ≡ on_last (add_spare image) disks.old.items) }
{
    let last = disks.len() - 1;
    let disk = &mut disks[last];
    disk.add_spare(image)?;
    Ok(())
}

#[tactic(auto, using(crate::proofs::LastLemmas::some_length))]
fn client_to_last(disks: &mut Vec<DiskPlan>, client: ClientPlan) -> Result<(), AllocError>
    requires { has_some disks.old.items ≡ true }
    ensures { OnOk result (disks.new.items ≡ on_last (add_client client) disks.old.items) }
{
    let last = disks.len() - 1;
    let disk = &mut disks[last];
    disk.add_client(client)?;
    Ok(())
}

#[tactic(auto, using(crate::proofs::PlannedSums::client_disk, crate::proofs::LastLemmas::last_passes, crate::proofs::LastLemmas::set_last))]
fn order_to_last(disks: &mut Vec<DiskPlan>, order: Order) -> Result<(), AllocError>
    requires { has_client disks.old.items ≡ true }
    ensures { OnOk result (disks.new.items ≡ on_last (add_last_order order) disks.old.items) }
{
    let last = disks.len() - 1;
    let disk = &mut disks[last];
    disk.add_order(order)?;
    Ok(())
}

/// How many bytes the line asks for.
pub fn bytes_of(order: &Order) -> u64
    ensures { result ≡ asked_bytes order.now }
{
    match order {
        Order::Request { asked, .. } => asked.length,
        Order::Wait => 0,
        Order::Cancel { .. } => 0,
        Order::Reset => 0,
        Order::Eject => 0,
        Order::Insert => 0,
        Order::Protect { .. } => 0,
    }
}
