ghost use Rattle.std.specs.Prelude.{◌≡◌};
ghost use Rattle.image_store.specs.Edge.{HasCauseOf, PutsText};
ghost use Rattle.script_text.specs.Tables.{table_text};

use image_store::Sink;
use partition_tables::Table;
use script_text::{ReportFault, report_table};
use std::alloc::Global;

/// Why a table could not be written.
#[derive(Clone, Copy, Debug, PartialEq, Eq)]
pub enum ShowFault {
    /// The sink failed.
    Failed,
    /// Memory ran out.
    Memory,
}

/// Writes the lines of a table: its kind, and its children in order of number (own profile). After a fault a front of them was
/// written. `Failed` comes only where the sink's faults rose.
pub fn show<O: Sink>(alloc: Global, table: &Table, out: &mut O) -> Result<(), ShowFault>
    ensures text { PutsText (O.outlet out.old).wrote (O.outlet out.new).wrote result (table_text table.now) }
    ensures cause { HasCauseOf ShowFault.Failed (O.outlet out.old).faults (O.outlet out.new).faults result }
{
    match report_table(alloc, table, out) {
        Ok(()) => Ok(()),
        Err(ReportFault::Failed) => Err(ShowFault::Failed),
        Err(ReportFault::Memory) => Err(ShowFault::Memory),
    }
}
