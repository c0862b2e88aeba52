//! The plate from which a shared disk is made.
ghost use Rattle.std.specs.Prelude.{◌≡◌, ◌+◌, length, IfOk};
ghost use Rattle.shared_disk.specs.Plate.{log_of, IsLogOf};

use crate::desk::Desk;
use crate::pens::{Pen, make_pen};
use medium::Medium;
use std::alloc::{AllocError, Global};
use std::marker::{Brand, Model};
use std::sync::ledger::Blank;

/// The pen of a desk's log, and a ledger that is not yet opened (own profile).
#[derive(Drop)]
pub struct Plate {
    pub(crate) pen: Pen,
    pub(crate) blank: Blank,
}

impl Model for Plate {
    ghost use Rattle.shared_disk.specs.Plate.{PlateState};

    ghost Value = { PlateState };

    ghost view = { λ p. record { table = p.pen.table; log = p.pen.log; ledger = p.blank.name; parts = p.blank.parts } };
}

impl Plate {
    /// The plate of a desk: its log has the desk's entries, and then its lines done. The ledger has one part for each
    /// client and one besides. The error is want of memory.
    pub fn make<M: Medium>(alloc: Global, desk: &Desk<M>) -> Result<Plate, AllocError>
        ensures log { IfOk result (λ plate. plate.log ≡ log_of desk.now) }
        ensures of { IfOk result (λ plate. IsLogOf desk.now plate.log) }
        ensures parts { IfOk result (λ plate. plate.parts ≡ length desk.now.script.roles + 1) }
    {
        let items = desk.done_lines() + desk.disk().history().len();
        let pen = make_pen::<Brand, Desk<M>>(alloc, items, desk)?;
        Ok(Plate {
            pen,
            blank: Blank::new(u64::from(desk.clients()) + 1),
        })
    }
}
