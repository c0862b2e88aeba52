//! The name of a shared disk.
use std::marker::Brand;
use std::sync::ledger::Ledger;

/// The name of one shared disk: what never changes of it. The lock's value, the seats and the hands carry it in their types
/// (own profile).
pub trait DiskName: Ledger {
    ghost use Rattle.atomic_table.specs.Seated.{TableId};
    ghost use Rattle.history.specs.Setup.{Setup};
    ghost use Rattle.shared_disk.specs.Script.{Script};

    // The table of its log.
    ghost table: { TableId };

    ghost setup: { Setup };

    // Its opening history, and its clients with their lines.
    ghost script: { Script };
}

impl DiskName for Brand {
    ghost use Rattle.std.specs.Prelude.{[], false};

    ghost table = { record { words = 0; slots = 0; views_name = 0; atom = 0; block = 0; offset = 0; slot_names = [] } };

    ghost setup = { record { geometry = record { size = 512; per = 1 }; cached = false; protected = false; media = [] } };

    ghost script = { record { opening = []; roles = [] } };
}
