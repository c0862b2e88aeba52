ghost use Rattle.std.specs.Prelude.{◌≡◌, true, OnOk};
ghost use Rattle.script_text.specs.Last.{has_some, on_last};
ghost use Rattle.script_text.specs.Planned.{add_spare, add_client, add_order, add_last_order};

use crate::language::names::{Items, Name};
use history::Order;
use std::alloc::AllocError;

/// A client of a disk (own profile).
#[derive(Drop)]
pub struct ClientPlan {
    /// The number of its partition, or nothing where it is on the whole disk.
    pub part: Option<u32>,
    /// The number of the line that begins it, from 1.
    pub line: u64,
    /// Its lines in order.
    pub orders: Items<Order>,
}

/// A disk of a script (own profile).
#[derive(Drop)]
pub struct DiskPlan {
    /// The image that its first medium is made of.
    pub image: Name,
    /// The size of a block in bytes: 512, 1024, 2048 or 4096.
    pub size: u32,
    /// How many workers it has, from 1 to 16.
    pub workers: u32,
    /// Whether its writes are cached until a flush.
    pub cached: bool,
    /// Whether it is write protected at the beginning.
    pub protected: bool,
    /// How many blocks a group has that is read and written as one: 1, 2, 4 or 8.
    pub physical: u32,
    /// The images of its further media in order, at most 15.
    pub spares: Items<Name>,
    /// Its clients in order, at most 64.
    pub clients: Items<ClientPlan>,
}

impl DiskPlan {
    /// Adds a further medium. The error is want of memory.
    pub(super) fn add_spare(&mut self, image: Name) -> Result<(), AllocError>
        ensures { OnOk result (self.new ≡ add_spare image self.old) }
    {
        self.spares.push(image)
    }

    /// Adds a client. The error is want of memory.
    pub(super) fn add_client(&mut self, client: ClientPlan) -> Result<(), AllocError>
        ensures { OnOk result (self.new ≡ add_client client self.old) }
    {
        self.clients.push(client)
    }

    /// Adds a line to the last client. The error is want of memory.
    pub(super) fn add_order(&mut self, order: Order) -> Result<(), AllocError>
        requires { has_some self.old.clients ≡ true }
        ensures { OnOk result (self.new ≡ add_last_order order self.old) }
    {
        add_to_last(&mut self.clients, order)
    }
}

fn add_to_last(clients: &mut Items<ClientPlan>, order: Order) -> Result<(), AllocError>
    requires { has_some clients.old ≡ true }
    ensures { OnOk result (clients.new ≡ on_last (add_order order) clients.old) }
{
    let last = clients.kept.len() - 1;
    let client = &mut clients.kept[last];
    client.orders.push(order)?;
    Ok(())
}

/// What a script says (own profile).
#[derive(Drop)]
pub struct Script {
    /// Its disks in order, at most 16.
    pub disks: Items<DiskPlan>,
}
