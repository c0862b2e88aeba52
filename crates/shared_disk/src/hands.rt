//! What a worker of a shared disk holds.
ghost use Rattle.std.specs.Prelude.{◌≡◌};
ghost use Rattle.shared_disk.specs.Log.{IsOld};

use crate::name::DiskName;
use crate::pens::{Note, Pen};
use std::marker::{Model, PhantomData};

/// A worker's hand: what it has seen of the log of the shared disk with this name (own profile).
#[derive(Drop)]
pub struct Hand<N: DiskName> {
    note: Note,
    of: PhantomData<N>,
}

impl<N: DiskName> Model for Hand<N> {
    ghost use Rattle.std.specs.Prelude.{◌≡◌, List};
    ghost use Rattle.shared_disk.specs.declared.log_rule.Item.{Item};

    ghost Value = { List Item };

    ghost view = { λ h. h.note.seen };

    ghost invariant = { λ h. h.note.table ≡ N.table };
}

impl<N: DiskName> Hand<N> {
    /// A hand that has seen the whole log.
    pub(crate) fn new(pen: &mut Pen) -> Hand<N>
        requires { pen.old.table ≡ N.table }
        ensures same { pen.new ≡ pen.old }
        ensures seen { result ≡ pen.old.log }
    {
        Hand {
            note: pen.note(),
            of: PhantomData,
        }
    }

    /// Renews its note at the pen.
    pub(crate) fn renew(&mut self, pen: &mut Pen)
        requires { pen.old.table ≡ N.table }
        ensures same { pen.new ≡ pen.old }
        ensures seen { self.new ≡ pen.old.log }
        ensures older { IsOld self.old pen.old.log }
    {
        pen.renew(&mut self.note);
    }
}
