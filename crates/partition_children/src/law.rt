ghost use Rattle.partition_children.specs.Law.{ChildNumbersDiffer, ChildRequestsStay, ChildViewsLie};

use disk_core::Disk;
use disk_io2::views_are_kept;
use medium::Medium;

/// Each child of a medium's table has its view on the medium. It does nothing else than to carry this law.
pub fn child_views_lie()
    ensures { ChildViewsLie }
{}

/// No two children of a medium's table have the same number, and so the node of each finds that child. It does nothing else than to
/// carry this law.
pub fn child_numbers_differ()
    ensures { ChildNumbersDiffer }
{}

/// The requests of a child change no byte outside its blocks, whatever was called on the disk. It does nothing else than to carry
/// this law.
pub fn child_requests_stay_inside<M: Medium>(disk: &Disk<M>)
    ensures { ChildRequestsStay disk.now.setup disk.now.entries }
{
    views_are_kept(disk);
}
