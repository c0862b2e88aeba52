ghost use Rattle.std.specs.Prelude.{◌≡◌, ◌^◌, ◌<◌, ◌∷◌, ◌++◌, ℕ, List, Some, IfOk, IfSome, codes};
ghost use Rattle.device_path.specs.declared.hard_drive.Format.{Format};
ghost use Rattle.device_path.specs.declared.hard_drive.Sign.{Sign};
ghost use Rattle.device_path.specs.declared.hard_drive.HardDrive.{HardDrive};
ghost use Rattle.std.specs.Fmt.{decimal};
ghost use Rattle.uuid.specs.Text.{hyphenated_text, lower};
ghost use Rattle.device_path.specs.Reading.{Lacks, TellsNumber};
ghost use Rattle.device_path.specs.Node.{IsHardDrive, IsSign};
ghost use Rattle.device_path.specs.Text.{IsTextOf, block_text, format_text, sign_text};

use crate::hard_drive::{Format, HardDrive, Sign};
use byte_lists::Bytes;
use std::alloc::{AllocError, Global};
use std::fmt;
use uuid::Uuid;

impl fmt::Display for Format {
    ghost output = { λ format. Some (format_text format) };

    fn fmt<W: fmt::Write>(&self, f: &mut fmt::Formatter<W>) -> fmt::Result {
        match self {
            Format::Mbr => f.write_str("MBR"),
            Format::Gpt => f.write_str("GPT"),
        }
    }
}

impl fmt::Display for Sign {
    ghost output = { λ sign. Some (sign_text sign) };

    fn fmt<W: fmt::Write>(&self, f: &mut fmt::Formatter<W>) -> fmt::Result {
        match self {
            Sign::None => f.write_str("0"),
            Sign::Mbr(signature) => write!(f, "0x{signature:08x}"),
            Sign::Guid(guid) => write!(f, "{guid}"),
        }
    }
}

/// The text of a hard drive node, as `HD(1,MBR,0x12345678,0x40,0x40)`. The error is want of memory (own profile).
pub fn write_text(alloc: Global, node: &HardDrive) -> Result<Bytes, AllocError>
    ensures { IfOk result (λ text. IsTextOf node.now text) }
{
    let HardDrive {
        number,
        start,
        size,
        format,
        sign,
    } = *node;
    let text = format!(in alloc; "HD({number},{format},{sign},0x{start:x},0x{size:x})")?;
    Ok(Bytes::from_vec(text.into_bytes()))
}

/// The hard drive of which these bytes are the text. None exactly where they are the text of none. The error is want of memory
/// (own profile).
pub fn read_text(alloc: Global, b: &[u8]) -> Result<Option<HardDrive>, AllocError>
    ensures text { IfOk result (λ answer. IfSome answer (λ node. IsTextOf node b.now)) }
    ensures each { (node : HardDrive) → IsHardDrive node → IsTextOf node b.now →
        IfOk result (λ answer. answer ≡ Some node) }
{
    let Ok(text) = str::from_utf8(b) else {
        return Ok(None);
    };
    // The text of the one candidate decides, so no spelling but the writer's is accepted.
    let node = candidate(text);
    let spelling = write_text(alloc, &node)?;
    if spelling.as_slice() == b {
        Ok(Some(node))
    } else {
        Ok(None)
    }
}

/// The one hard drive of which this can be the text. Of other texts, any.
fn candidate(text: &str) -> HardDrive
    ensures { (node : HardDrive) → IsHardDrive node → IsTextOf node text.now → result ≡ node }
{
    let (_, fields) = cut(text, '(');
    let (number, fields) = cut(fields, ',');
    let (format, fields) = cut(fields, ',');
    let (sign, fields) = cut(fields, ',');
    let (start, fields) = cut(fields, ',');
    let (size, _) = cut(fields, ')');
    HardDrive {
        number: decimal_in(number),
        start: hexadecimal_in(start),
        size: hexadecimal_in(size),
        format: format_in(format),
        sign: sign_in(sign),
    }
}

/// What stands before this ASCII character and what behind it. Where it is not there, anything.
fn cut(text: &str, end: char) -> (&str, &str)
    requires { end < 128 }
    ensures { (front rest : List ℕ) → Lacks end front → text.now ≡ front ++ end ∷ rest →
        (result.0.now ≡ front) × (result.1.now ≡ rest) }
{
    match text.split_once(end) {
        Some(parts) => parts,
        None => (text, text),
    }
}

/// The number that a text of decimal digits tells.
fn decimal_in(text: &str) -> u32
    ensures { (n : ℕ) → n < 2 ^ 32 → text.now ≡ decimal n → result ≡ n }
{
    text.parse().unwrap_or(0)
}

/// The number that hexadecimal digits behind `0x` tell.
fn hexadecimal_in(text: &str) -> u64
    ensures { (n : ℕ) → n < 2 ^ 64 → TellsNumber n text.now → result ≡ n }
{
    let (_, digits) = cut(text, 'x');
    u64::from_str_radix(digits, 16).unwrap_or(0)
}

/// The format that its text tells.
fn format_in(text: &str) -> Format
    ensures { (format : Format) → text.now ≡ format_text format → result ≡ format }
{
    if text == "GPT" {
        Format::Gpt
    } else {
        Format::Mbr
    }
}

/// The signature that its text tells.
fn sign_in(text: &str) -> Sign
    ensures { (sign : Sign) → IsSign sign → text.now ≡ sign_text sign → result ≡ sign }
{
    if text == "0" {
        Sign::None
    } else if text.starts_with("0x") {
        Sign::Mbr(u32::try_from(hexadecimal_in(text)).unwrap_or(0))
    } else {
        guid_in(text)
    }
}

/// The signature that the text of a GUID tells.
fn guid_in(text: &str) -> Sign
    ensures { (guid : List ℕ) → IsSign (Sign.Guid guid) → text.now ≡ hyphenated_text lower guid →
        result ≡ Sign.Guid guid }
{
    match Uuid::parse_str(text) {
        Ok(guid) => Sign::Guid(guid),
        Err(_) => Sign::None,
    }
}
