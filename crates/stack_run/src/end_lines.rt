ghost use Rattle.std.specs.Prelude.{◌≡◌, ◌≤◌, ◌&&◌, [], Some, All, length, reverse, vec_capacity};
ghost use Rattle.history.specs.Tokens.{token_count, is_read};
ghost use Rattle.script_text.specs.Report.{is_success, tagged_read, tagged_reads};
ghost use Rattle.stack_run.specs.EndLines.{IsCollected, line_told, lines_told};

use efi_status::Status;
use history::{Entry, History, Kind};
use script_text::TokenLine;
use shared_disk::{Buffer, Slot};
use token_table::Done;

fn is_read(kind: Kind) -> bool
    ensures { result ≡ is_read kind }
{
    match kind {
        Kind::Read => true,
        Kind::Write => false,
        Kind::Flush => false,
        Kind::Erase => false,
    }
}

// Whether a request that was accepted is a read whose tag is not 0.
fn tagged_read(entry: &Entry) -> Option<bool>
    ensures { result ≡ tagged_read entry.now }
{
    match entry {
        Entry::Accept { tag, asked, .. } => Some(is_read(asked.kind) && *tag != 0),
        Entry::Refuse { .. } => None,
        Entry::Done { .. } => None,
        Entry::Fault { .. } => None,
        Entry::Collect { .. } => None,
        Entry::Cancel { .. } => None,
        Entry::Reset { .. } => None,
        Entry::Eject { .. } => None,
        Entry::Insert { .. } => None,
        Entry::Protect { .. } => None,
    }
}

fn is_success(status: Status) -> bool
    ensures { result ≡ is_success (Some status) }
{
    match status {
        Status::Success => true,
        Status::InvalidParameter => false,
        Status::BadBufferSize => false,
        Status::DeviceError => false,
        Status::WriteProtected => false,
        Status::OutOfResources => false,
        Status::NoMedia => false,
        Status::MediaChanged => false,
        Status::Aborted => false,
    }
}

// How a token ended that was collected: a read with a tag gives its bytes where it succeeded. One whose buffer another caller
// has is of a probe, and succeeded.
fn line_of(tagged: bool, slot: Slot) -> TokenLine
    requires { IsCollected slot.buffer }
    ensures { result ≡ line_told tagged slot.buffer }
{
    let Slot { buffer, .. } = slot;
    match buffer {
        Buffer::Kept(Done { status, buffer }) => {
            let given = if tagged && is_success(status) {
                Some(buffer)
            } else {
                None
            };
            TokenLine { status, given }
        }
        Buffer::Awaited => unreachable!(),
        Buffer::Gone => TokenLine {
            status: Status::Success,
            given: None,
        },
    }
}

// Adds how each token of a history ended, for which there is room. All of them were collected.
pub fn fill_lines(history: &History, slots: Vec<Slot>, ends: &mut Vec<TokenLine>)
    requires empty { ends.old.items ≡ [] }
    requires room { token_count history.now.entries ≤ vec_capacity ends.old }
    requires counted { length slots.items ≡ token_count history.now.entries }
    requires collected { All (λ slot. IsCollected slot.buffer) slots.items }
    ensures { ends.new.items ≡ lines_told (tagged_reads (reverse history.now.entries)) slots.items }
{
    let mut slots = slots.into_iter();
    for entry in history.entries() {
        if let Some(tagged) = tagged_read(entry) {
            match slots.next() {
                Some(slot) => ends.push_reserved(line_of(tagged, slot)),
                None => unreachable!(),
            }
        }
    }
}
