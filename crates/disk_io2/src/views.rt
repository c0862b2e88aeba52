ghost use Rattle.std.specs.Prelude.{◌≡◌, ℕ};
ghost use Rattle.history.specs.Contents.{pieces_of};
ghost use Rattle.history_laws.specs.Ranges.{AreInViews};
ghost use Rattle.disk_io2.specs.Views.{whole_view_in};
ghost use Rattle.history_laws.specs.Ranges.{OutsideStays};

use disk_core::Disk;
use history::View;
use medium::Medium;

/// The whole of the medium that is in, as a view with the index 0. None exactly where no medium is in.
pub fn whole<M: Medium>(disk: &Disk<M>) -> Option<View>
    ensures { result ≡ whole_view_in disk.now.setup disk.now.entries }
{
    let drive = disk.drive();
    if !drive.present() {
        return None;
    }
    let media_id = drive.media_id();
    let Some(blocks) = drive.blocks_of(media_id) else {
        unreachable!()
    };
    Some(View {
        start: 0,
        length: blocks * u64::from(drive.size()),
        media_id,
        index: 0,
    })
}

/// Whatever was called on a disk, each piece that a request put on a medium lies inside its view, and a byte outside the
/// views of all requests that made commands is as it was before them: so the requests of a partition change no byte
/// outside its blocks. It does nothing else than to carry these laws.
pub fn views_are_kept<M: Medium>(disk: &Disk<M>)
    ensures inside { (k : ℕ) → AreInViews disk.now.setup k disk.now.entries
        (pieces_of disk.now.setup k disk.now.entries) }
    ensures outside { OutsideStays disk.now.setup disk.now.entries }
{
    disk.history();
    disk.drive();
}
