#![tactic(auto, unfolding(crate::specs::Text::line_of, crate::specs::Text::hex_text, crate::specs::Text::view_text, crate::specs::Text::asked_text, crate::specs::Text::kind_text, crate::specs::Text::unit_text, crate::specs::Entries::line_text, crate::specs::Entries::entry_words))]

ghost use Rattle.std.specs.Prelude.{◌≡◌, ◌∷◌, [], decimal, string_bytes, Some, IfOk};
ghost use Rattle.script_text.specs.Text.{kind_text, unit_text};
ghost use Rattle.script_text.specs.Entries.{line_text};
ghost use Rattle.history.specs.declared.entry.Entry.TheVariants.{Accept, Refuse, Done, Fault, Protect};

use crate::report::hexadecimal::push_hex;
use efi_status::Status;
use history::{Asked, Command, Entry, Kind, UnitKind, View};
use std::alloc::{AllocError, Global};
use std::fmt;

/// The text of a view.
#[derive(Clone, Copy)]
pub struct ViewText {
    pub view: View,
}

impl fmt::Display for ViewText {
    ghost use Rattle.std.specs.Prelude.{Some};
    ghost use Rattle.script_text.specs.Text.{view_text};

    ghost output = { λ shown. Some (view_text shown.view) };

    fn fmt<W: fmt::Write>(&self, f: &mut fmt::Formatter<W>) -> fmt::Result {
        let View {
            start,
            length,
            media_id,
            index,
        } = self.view;
        write!(f, "{start}+{length}@{media_id}/{index}")
    }
}

/// The text of what was asked.
#[derive(Clone, Copy)]
pub struct AskedText {
    pub asked: Asked,
}

impl fmt::Display for AskedText {
    ghost use Rattle.std.specs.Prelude.{Some};
    ghost use Rattle.script_text.specs.Text.{asked_text};

    ghost output = { λ shown. Some (asked_text shown.asked) };

    fn fmt<W: fmt::Write>(&self, f: &mut fmt::Formatter<W>) -> fmt::Result {
        let kind = kind_word(self.asked.kind);
        let unit = unit_word(self.asked.unit);
        let Asked { at, length, .. } = self.asked;
        write!(f, "{kind} {unit} {at} {length}")
    }
}

fn kind_word(kind: Kind) -> &'static str
    ensures { result.now ≡ kind_text kind }
{
    match kind {
        Kind::Read => "read",
        Kind::Write => "write",
        Kind::Flush => "flush",
        Kind::Erase => "erase",
    }
}

fn unit_word(unit: UnitKind) -> &'static str
    ensures { result.now ≡ unit_text unit }
{
    match unit {
        UnitKind::Bytes => "bytes",
        UnitKind::Blocks => "blocks",
    }
}

/// The line of an entry. The error is want of memory.
pub fn entry_line(alloc: Global, per: u32, place: u64, entry: &Entry) -> Result<String, AllocError>
    ensures { IfOk result (λ text. string_bytes text ≡ line_text per place entry.now) }
{
    match entry {
        Entry::Accept {
            tag,
            view,
            asked,
            bytes,
        } => { accept_line(alloc, per, place, *tag, *view, *asked, bytes.as_slice()) }
        Entry::Refuse {
            tag,
            view,
            asked,
            media_id,
            status,
        } => { refuse_line(alloc, per, place, *tag, *view, *asked, *media_id, *status) }
        Entry::Done { token, command } => done_line(alloc, per, place, *token, *command),
        Entry::Fault {
            token,
            command,
            done,
        } => fault_line(alloc, per, place, *token, *command, *done),
        Entry::Collect { tag, token } => format!(in alloc; "{place} collect {tag} {token}\n"),
        Entry::Cancel { tag, view } => {
            let view = ViewText { view: *view };
            format!(in alloc; "{place} cancel {tag} {view}\n")
        }
        Entry::Reset { tag } => format!(in alloc; "{place} reset {tag}\n"),
        Entry::Eject { tag } => format!(in alloc; "{place} eject {tag}\n"),
        Entry::Insert { tag, media_id } => format!(in alloc; "{place} insert {tag} {media_id}\n"),
        Entry::Protect { tag, on } => protect_line(alloc, per, place, *tag, *on),
    }
}

fn protect_line(
    alloc: Global,
    per: u32,
    place: u64,
    tag: u32,
    on: bool,
) -> Result<String, AllocError>
    ensures { IfOk result (λ text. string_bytes text ≡ line_text per place (Protect tag on)) }
{
    if on {
        format!(in alloc; "{place} protect {tag} on\n")
    } else {
        format!(in alloc; "{place} protect {tag} off\n")
    }
}

fn accept_line(
    alloc: Global,
    per: u32,
    place: u64,
    tag: u32,
    view: View,
    asked: Asked,
    bytes: &[u8],
) -> Result<String, AllocError>
    ensures { IfOk result (λ text.
        string_bytes text ≡ line_text per place (Accept tag view asked bytes.now)) }
{
    let view = ViewText { view };
    let kind = asked.kind;
    let asked = AskedText { asked };
    match kind {
        Kind::Read | Kind::Erase => format!(in alloc; "{place} accept {tag} {view} {asked}\n"),
        Kind::Write => {
            let mut line = format!(in alloc; "{place} accept {tag} {view} {asked} ")?;
            push_hex(alloc, &mut line, bytes)?;
            line.push_str("\n")?;
            Ok(line)
        }
        Kind::Flush => format!(in alloc; "{place} accept {tag} {view} flush\n"),
    }
}

fn refuse_line(
    alloc: Global,
    per: u32,
    place: u64,
    tag: u32,
    view: View,
    asked: Asked,
    media_id: u32,
    status: Status,
) -> Result<String, AllocError>
    ensures { IfOk result (λ text.
        string_bytes text ≡ line_text per place (Refuse tag view asked media_id status)) }
{
    let view = ViewText { view };
    let asked = AskedText { asked };
    let status = status.name();
    format!(in alloc; "{place} refuse {tag} {view} {asked} {media_id} {status}\n")
}

fn done_line(
    alloc: Global,
    per: u32,
    place: u64,
    token: u64,
    command: Command,
) -> Result<String, AllocError>
    ensures { IfOk result (λ text. string_bytes text ≡ line_text per place (Done token command)) }
{
    match command {
        Command::Fetch { block } => format!(in alloc; "{place} fetch {token} {block}\n"),
        Command::Store { block } => format!(in alloc; "{place} store {token} {block}\n"),
        Command::Put { block, count } => format!(in alloc; "{place} put {token} {block} {count}\n"),
        Command::Get { block, count } => format!(in alloc; "{place} get {token} {block} {count}\n"),
        Command::Wipe { block, count } => {
            format!(in alloc; "{place} wipe {token} {block} {count}\n")
        }
        Command::Sync => format!(in alloc; "{place} sync {token}\n"),
    }
}

fn fault_line(
    alloc: Global,
    per: u32,
    place: u64,
    token: u64,
    command: Command,
    done: u32,
) -> Result<String, AllocError>
    ensures { IfOk result (λ text.
        string_bytes text ≡ line_text per place (Fault token command done)) }
{
    match command {
        Command::Fetch { block } => {
            format!(in alloc; "{place} fault {token} fetch {block} {per} {done}\n")
        }
        Command::Store { block } => {
            format!(in alloc; "{place} fault {token} store {block} {per} {done}\n")
        }
        Command::Put { block, count } => {
            format!(in alloc; "{place} fault {token} put {block} {count} {done}\n")
        }
        Command::Get { block, count } => {
            format!(in alloc; "{place} fault {token} get {block} {count} {done}\n")
        }
        Command::Wipe { block, count } => {
            format!(in alloc; "{place} fault {token} wipe {block} {count} {done}\n")
        }
        Command::Sync => format!(in alloc; "{place} fault {token} sync 0 0 {done}\n"),
    }
}
