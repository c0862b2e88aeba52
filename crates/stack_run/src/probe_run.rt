ghost use Rattle.std.specs.Prelude.{◌≡◌, ◌⊎◌};
ghost use Rattle.medium.specs.Counts.{Rose};
ghost use Rattle.medium.specs.Device.{IsBlockSize};
ghost use Rattle.image_store.specs.Edge.{Appends, AppendsFront};
ghost use Rattle.image_store.specs.Place.{ChangesOnly, IsFree};
ghost use Rattle.stack_run.specs.Listing.{IsListed, IsListedInPart, IsUnlisted, ListingRanOut, ProbeRanOut, listing_text};
ghost use Rattle.stack_run.specs.Media.{LacksBlocks};
ghost use Rattle.stack_run.specs.Probing.{wanted_alone};
ghost use Rattle.stack_run.specs.Program.{IsServingStatus};

use crate::listing::{Listing, write_listing};
use crate::probing::probe_image;
use crate::refusal::{NotRun, Refusal};
use crate::refusing::refuse;
use crate::wanted::Wanted;
use image_store::{Images, Sink};
use partition_tables::Table;
use script_text::{Name, ReportFault};
use std::alloc::Global;

// Writes what is told of a table, and answers the program's status.
fn list<O: Sink>(alloc: Global, what: Listing, table: &Option<Table>, out: &mut O) -> u8
    ensures done { result ≡ 0 → Appends (O.outlet out.old).wrote (O.outlet out.new).wrote
        (listing_text what table.now) }
    ensures quiet { result ≡ 0 → (O.outlet out.new).faults ≡ (O.outlet out.old).faults }
    ensures sink { result ≡ 5 → AppendsFront (O.outlet out.old).wrote (O.outlet out.new).wrote
        (listing_text what table.now) }
    ensures cause { result ≡ 5 → Rose (O.outlet out.old).faults (O.outlet out.new).faults }
    ensures memory { result ≡ 6 → AppendsFront (O.outlet out.old).wrote (O.outlet out.new).wrote
        (listing_text what table.now) }
    ensures quiet_too { result ≡ 6 → (O.outlet out.new).faults ≡ (O.outlet out.old).faults }
    ensures few { (result ≡ 0) ⊎ ((result ≡ 5) ⊎ (result ≡ 6)) }
{
    match write_listing(alloc, what, table, out) {
        Ok(()) => 0,
        Err(ReportFault::Failed) => 5,
        Err(ReportFault::Memory) => 6,
    }
}

/// Takes an image uncached, reads its partition table, puts it back, and writes what is told of the table. It answers the program's
/// status (own profile):
///
/// - 0: the image is as it was. What was written is the table of its whole blocks or its children's paths, or that the table could
///   not be read, exactly where a command failed.
/// - 3 where the image is missing, shorter than a block, or failed, or could not be put back. The line names it.
/// - 5 where the sink failed: the image is as after 0, and a front of the lines was written.
/// - 6 for want of memory: the image is as it was, or could not be put back.
pub fn run_probe<I: Images, O: Sink>(
    alloc: Global,
    what: Listing,
    name: Name,
    size: u32,
    images: &mut I,
    out: &mut O,
) -> u8
    requires size { IsBlockSize size }
    requires free { IsFree (I.at images.old name).place }
    ensures done { result ≡ 0 → IsListed what size (I.at images.old name) (I.at images.new name)
        (Appends (O.outlet out.old).wrote (O.outlet out.new).wrote) }
    ensures quiet { result ≡ 0 → (O.outlet out.new).faults ≡ (O.outlet out.old).faults }
    ensures image { result ≡ 3 → IsUnlisted (wanted_alone name size) (I.at images.old name)
        (I.at images.new name) (O.outlet out.old) (O.outlet out.new) }
    ensures lacks { LacksBlocks (wanted_alone name size) (I.at images.old name).place
        → (result ≡ 3) ⊎ (result ≡ 6) }
    ensures sink { result ≡ 5 → IsListedInPart what size (I.at images.old name)
        (I.at images.new name) (O.outlet out.old) (O.outlet out.new) }
    ensures memory { result ≡ 6 → ProbeRanOut size (I.at images.old name) (I.at images.new name)
        (O.outlet out.old) (O.outlet out.new)
        ⊎ ListingRanOut what size (I.at images.old name) (I.at images.new name) (O.outlet out.old)
        (O.outlet out.new) }
    ensures few { IsServingStatus result }
    ensures again { IsFree (I.at images.new name).place }
    ensures others { ChangesOnly name (I.at images.old) (I.at images.new) }
{
    let want = Wanted {
        image: name,
        size,
        cached: false,
        physical: 1,
    };
    match probe_image(alloc, &want, images) {
        Ok(table) => list(alloc, what, &table, out),
        Err(NotRun::Image) => refuse(Refusal::Image, want.image.as_str(), out),
        Err(NotRun::Memory) => refuse(Refusal::Memory, "", out),
    }
}
