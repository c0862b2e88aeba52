ghost use Rattle.std.specs.Prelude.{◌≡◌, string_bytes};
ghost use Rattle.image_store.specs.Edge.{PutsText, HasCauseOf};
ghost use Rattle.script_text.specs.Held.{AddsText};
ghost use Rattle.script_text.specs.Tables.{table_text, children_text, unread_text};

use crate::report::parts::ReportFault;
use crate::report::pieces;
use crate::report::tables::{child_line, kind_line};
use image_store::Sink;
use partition_tables::{Child, Table};
use std::alloc::Global;

/// Writes the lines of a disk's partition table: its kind, and its children in order of number (own profile). After a
/// fault a front of them was written. `Failed` comes only where the sink's faults rose.
#[tactic(auto, using(crate::proofs::HeldText::none_put, crate::proofs::HeldText::puts_held), unfolding(crate::specs::Tables::table_text))]
pub fn report_table<O: Sink>(alloc: Global, table: &Table, out: &mut O) -> Result<(), ReportFault>
    ensures text { PutsText (O.outlet out.old).wrote (O.outlet out.new).wrote result (table_text table.now) }
    ensures cause { HasCauseOf ReportFault.Failed (O.outlet out.old).faults (O.outlet out.new).faults result }
{
    let mut held = match kind_line(alloc, table.kind) {
        Ok(line) => line,
        Err(_) => return Err(ReportFault::Memory),
    };
    match add_children(alloc, table.children.as_slice(), &mut held, out) {
        Ok(()) => pieces::put(out, held.as_str()),
        Err(fault) => Err(fault),
    }
}

/// Writes the line of a partition table that could not be read (own profile). After a fault a front of it was written.
/// `Failed` comes only where the sink's faults rose.
#[tactic(auto, unfolding(crate::specs::Text::line_of, crate::specs::Tables::unread_text))]
pub fn report_unread<O: Sink>(out: &mut O) -> Result<(), ReportFault>
    ensures text { PutsText (O.outlet out.old).wrote (O.outlet out.new).wrote result unread_text }
    ensures cause { HasCauseOf ReportFault.Failed (O.outlet out.old).faults (O.outlet out.new).faults result }
{
    pieces::put(out, "table unread\n")
}

fn add_children<O: Sink>(
    alloc: Global,
    children: &[Child],
    held: &mut String,
    out: &mut O,
) -> Result<(), ReportFault>
    ensures text { AddsText (O.outlet out.old).wrote (string_bytes held.old) result
        (O.outlet out.new).wrote (string_bytes held.new) (children_text children.now) }
    ensures cause { HasCauseOf ReportFault.Failed (O.outlet out.old).faults (O.outlet out.new).faults result }
{
    for child in children {
        match pieces::add_made(held, out, child_line(alloc, child)) {
            Ok(()) => {}
            Err(fault) => return Err(fault),
        }
    }
    Ok(())
}
