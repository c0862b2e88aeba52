ghost use Rattle.std.specs.Prelude.{◌≡◌, IfOk};
ghost use Rattle.image_store.specs.Edge.{HasCauseOf, PutsText};
ghost use Rattle.stack_run.specs.Listing.{listing_text, path_text, paths_text};

use device_path::{write_node, write_text};
use image_store::{PutFault, Sink};
use partition_children::node_of;
use partition_tables::{Child, Table};
use script_text::{ReportFault, report_table, report_unread};
use std::alloc::{AllocError, Global};

/// What is written of a partition table (own profile).
#[derive(Clone, Copy, Debug, PartialEq, Eq)]
pub enum Listing {
    /// Its kind and its children.
    Table,
    /// The device paths of its children.
    Paths,
}

// The line of a child's path. The error is want of memory.
fn path_line(alloc: Global, child: &Child) -> Result<Vec<u8>, AllocError>
    ensures { IfOk result (λ line. line.items ≡ path_text child.now) }
{
    let node = node_of(child);
    let number = child.number;
    let digits = hex::encode(alloc, write_node(&node).as_slice())?;
    let mut line = format!(in alloc; "path {number} {digits} ")?.into_bytes();
    line.extend_from_slice(write_text(alloc, &node)?.as_slice())?;
    line.push(b'\n')?;
    Ok(line)
}

// The lines of all children's paths. The error is want of memory.
fn path_lines(alloc: Global, children: &[Child]) -> Result<Vec<u8>, AllocError>
    ensures { IfOk result (λ lines. lines.items ≡ paths_text children.now) }
{
    let mut lines = Vec::new(alloc);
    for child in children {
        lines.extend_from_slice(&path_line(alloc, child)?)?;
    }
    Ok(lines)
}

// Writes the paths of children, or after a fault a front of them.
fn write_paths<O: Sink>(alloc: Global, children: &[Child], out: &mut O) -> Result<(), ReportFault>
    ensures text { PutsText (O.outlet out.old).wrote (O.outlet out.new).wrote result
        (paths_text children.now) }
    ensures cause { HasCauseOf ReportFault.Failed (O.outlet out.old).faults (O.outlet out.new).faults
        result }
{
    let lines = match path_lines(alloc, children) {
        Ok(lines) => lines,
        Err(_) => return Err(ReportFault::Memory),
    };
    match out.put(&lines) {
        Ok(()) => Ok(()),
        Err(PutFault::Failed) => Err(ReportFault::Failed),
        Err(PutFault::Memory) => Err(ReportFault::Memory),
    }
}

/// Writes what is told of a table, or that it could not be read, or after a fault a front of that.
pub fn write_listing<O: Sink>(
    alloc: Global,
    what: Listing,
    table: &Option<Table>,
    out: &mut O,
) -> Result<(), ReportFault>
    ensures text { PutsText (O.outlet out.old).wrote (O.outlet out.new).wrote result
        (listing_text what table.now) }
    ensures cause { HasCauseOf ReportFault.Failed (O.outlet out.old).faults (O.outlet out.new).faults
        result }
{
    match table {
        None => report_unread(out),
        Some(table) => match what {
            Listing::Table => report_table(alloc, table, out),
            Listing::Paths => write_paths(alloc, table.children.as_slice(), out),
        },
    }
}
