#![tactic(auto, unfolding(crate::specs::Text::line_of, crate::specs::Tables::child_text, crate::specs::Tables::origin_text, crate::specs::Tables::kind_line_text))]

ghost use Rattle.std.specs.Prelude.{◌≡◌, string_bytes, IfOk};
ghost use Rattle.script_text.specs.Tables.{table_word, child_text, kind_line_text};

use partition_tables::{Child, Origin, TableKind};
use std::alloc::{AllocError, Global};
use std::fmt;

/// A byte in two hexadecimal digits.
#[derive(Clone, Copy)]
struct TwoDigits {
    number: u8,
}

impl fmt::Display for TwoDigits {
    ghost use Rattle.std.specs.Prelude.{Some};
    ghost use Rattle.script_text.specs.Tables.{digits_of};

    ghost output = { λ shown. Some (digits_of 2 shown.number) };

    fn fmt<W: fmt::Write>(&self, f: &mut fmt::Formatter<W>) -> fmt::Result {
        let number = self.number;
        write!(f, "{number:02x}")
    }
}

/// A number of 32 bits in eight hexadecimal digits.
#[derive(Clone, Copy)]
struct EightDigits {
    number: u32,
}

impl fmt::Display for EightDigits {
    ghost use Rattle.std.specs.Prelude.{Some};
    ghost use Rattle.script_text.specs.Tables.{digits_of};

    ghost output = { λ shown. Some (digits_of 8 shown.number) };

    fn fmt<W: fmt::Write>(&self, f: &mut fmt::Formatter<W>) -> fmt::Result {
        let number = self.number;
        write!(f, "{number:08x}")
    }
}

/// The text of what a table says of a child beside its place.
#[derive(Clone, Copy)]
struct OriginText {
    origin: Origin,
}

impl fmt::Display for OriginText {
    ghost use Rattle.std.specs.Prelude.{Some};
    ghost use Rattle.script_text.specs.Tables.{origin_text};

    ghost output = { λ shown. Some (origin_text shown.origin) };

    fn fmt<W: fmt::Write>(&self, f: &mut fmt::Formatter<W>) -> fmt::Result {
        match self.origin {
            Origin::Mbr {
                os_type,
                signature,
                boot,
            } => {
                let os_type = TwoDigits { number: os_type };
                let signature = EightDigits { number: signature };
                write!(f, "type {os_type} id {signature} attributes {boot}")
            }
            Origin::Gpt {
                kind,
                unique,
                attributes,
            } => write!(f, "type {kind} id {unique} attributes {attributes}"),
        }
    }
}

fn table_word(kind: TableKind) -> &'static str
    ensures { result.now ≡ table_word kind }
{
    match kind {
        TableKind::Plain => "plain",
        TableKind::Mbr => "mbr",
        TableKind::GptPrimary => "gpt-primary",
        TableKind::GptBackup => "gpt-backup",
        TableKind::GptDamaged => "gpt-damaged",
    }
}

/// The line of a table. The error is want of memory.
pub fn kind_line(alloc: Global, kind: TableKind) -> Result<String, AllocError>
    ensures { IfOk result (λ text. string_bytes text ≡ kind_line_text kind) }
{
    let word = table_word(kind);
    format!(in alloc; "table {word}\n")
}

/// The line of a child. The error is want of memory.
pub fn child_line(alloc: Global, child: &Child) -> Result<String, AllocError>
    ensures { IfOk result (λ text. string_bytes text ≡ child_text child.now) }
{
    let Child {
        number,
        first,
        blocks,
        origin,
    } = *child;
    let origin = OriginText { origin };
    format!(in alloc; "child {number} first {first} blocks {blocks} {origin}\n")
}
