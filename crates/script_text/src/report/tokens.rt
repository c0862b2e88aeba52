#![tactic(auto, unfolding(crate::specs::Text::line_of, crate::specs::Report::head_text, crate::specs::Report::token_text, crate::specs::Report::medium_text))]

ghost use Rattle.std.specs.Prelude.{◌≡◌, ◌&&◌, string_bytes, Some, IfOk, option_map};
ghost use Rattle.history.specs.Tokens.{is_read};
ghost use Rattle.script_text.specs.Report.{head_text, end_text, given_if, is_success, tagged_read, tagged_reads, is_tagged, medium_text};

use crate::report::hexadecimal::push_hex;
use crate::report::parts::{KeptMedium, TokenLine};
use efi_status::Status;
use history::{Entry, Kind};
use std::alloc::{AllocError, Global};

/// The first line of a disk. The error is want of memory.
pub fn head_line(
    alloc: Global,
    number: u32,
    image: &str,
    size: u32,
    blocks: u64,
    physical: u32,
) -> Result<String, AllocError>
    ensures { IfOk result (λ text.
        string_bytes text ≡ head_text number image.now size blocks physical) }
{
    if physical == 1 {
        format!(in alloc; "disk {number} {image} size {size} blocks {blocks}\n")
    } else {
        format!(in alloc; "disk {number} {image} size {size} blocks {blocks} physical {physical}\n")
    }
}

/// Whether each request that was accepted is a read whose tag is not 0. The error is want of memory.
#[tactic(auto, unfolding(crate::specs::Report::tagged_reads))]
pub fn tagged_reads(alloc: Global, entries: &[Entry]) -> Result<Vec<bool>, AllocError>
    ensures { IfOk result (λ tagged. tagged.items ≡ tagged_reads entries.now) }
{
    entries
        .iter()
        .filter_map(|entry| tagged_read(entry))
        .collect(alloc)
}

fn tagged_read(entry: &Entry) -> Option<bool>
    ensures { result ≡ tagged_read entry.now }
{
    match entry {
        Entry::Accept { tag, asked, .. } => Some(is_read(asked.kind) && *tag != 0),
        Entry::Refuse { .. } => None,
        Entry::Done { .. } => None,
        Entry::Fault { .. } => None,
        Entry::Collect { .. } => None,
        Entry::Cancel { .. } => None,
        Entry::Reset { .. } => None,
        Entry::Eject { .. } => None,
        Entry::Insert { .. } => None,
        Entry::Protect { .. } => None,
    }
}

fn is_read(kind: Kind) -> bool
    ensures { result ≡ is_read kind }
{
    match kind {
        Kind::Read => true,
        Kind::Write => false,
        Kind::Flush => false,
        Kind::Erase => false,
    }
}

/// Whether a token is a read whose tag is not 0.
pub fn is_tagged(tagged: &[bool], token: usize) -> bool
    ensures { result ≡ is_tagged tagged.now token }
{
    match tagged.get(token) {
        Some(tagged) => *tagged,
        None => false,
    }
}

// The bytes that a token gives back in the report: those of a successful read whose tag is not 0.
fn given_bytes(tagged: bool, line: &TokenLine) -> Option<&[u8]>
    ensures { option_map (λ bytes. bytes.now) result
        ≡ given_if (tagged && is_success (Some line.now.status)) line.now.given }
{
    if !tagged || !is_success(line.status) {
        return None;
    }
    match &line.given {
        Some(bytes) => Some(bytes.as_slice()),
        None => None,
    }
}

fn is_success(status: Status) -> bool
    ensures { result ≡ is_success (Some status) }
{
    match status {
        Status::Success => true,
        Status::InvalidParameter => false,
        Status::BadBufferSize => false,
        Status::DeviceError => false,
        Status::WriteProtected => false,
        Status::OutOfResources => false,
        Status::NoMedia => false,
        Status::MediaChanged => false,
        Status::Aborted => false,
    }
}

/// The line of a token. The error is want of memory.
pub fn token_line(
    alloc: Global,
    token: u64,
    tagged: bool,
    line: &TokenLine,
) -> Result<String, AllocError>
    ensures { IfOk result (λ text. string_bytes text ≡ end_text token tagged line.now) }
{
    let status = line.status.name();
    match given_bytes(tagged, line) {
        Some(bytes) => {
            let mut text = format!(in alloc; "token {token} {status} ")?;
            push_hex(alloc, &mut text, bytes)?;
            text.push_str("\n")?;
            Ok(text)
        }
        None => format!(in alloc; "token {token} {status}\n"),
    }
}

/// The line of a medium that was kept. The error is want of memory.
pub fn medium_line(alloc: Global, id: u64, medium: &KeptMedium) -> Result<String, AllocError>
    ensures { IfOk result (λ text. string_bytes text ≡ medium_text id medium.now) }
{
    let name = medium.name.as_str();
    let bytes = medium.bytes;
    format!(in alloc; "medium {id} {name} kept {bytes}\n")
}
