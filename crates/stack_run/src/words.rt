ghost use Rattle.std.specs.Prelude.{◌≡◌, true, map, string_bytes, IfOk, OnErr};
ghost use Rattle.std.specs.List.{list_any, list_all};
ghost use Rattle.std.specs.Char.{is_ascii_digit};
ghost use Rattle.medium.specs.Device.{is_block_size};
ghost use Rattle.script_text.specs.Fitting.{is_name_byte};
ghost use Rattle.script_text.specs.Words.{number_of};
ghost use Rattle.stack_run.specs.Words.{is_dashed, is_file, are_counts, block_size_of, file_size, sized_row, generated_row, row_by, row_of, is_file_row, IfGenerated};

use script_text::{NAME_BYTES, Name};
use std::alloc::{AllocError, Global};

/// A row of the table of the program's words (own profile).
#[derive(Drop)]
pub enum Row {
    /// `plain`: a script from the source.
    Plain,
    /// `probe FILE SIZE`: the partition table of an image, with blocks of so many bytes: 512, 1024, 2048 or 4096.
    Probe {
        file: Name,
        size: u32,
    },
    /// `paths FILE SIZE`: the device paths of its partitions.
    Paths {
        file: Name,
        size: u32,
    },
    /// `gen NUMBER CLIENTS LINES`: the script that the number makes, of 1 to 64 clients with at least one line each, at most
    /// 100,000 lines in all.
    Generated {
        number: u64,
        clients: u64,
        lines: u64,
    },
}

// Whether the word begins with `-`.
fn is_dashed(word: &str) -> bool
    ensures { result ≡ is_dashed word.now }
{
    let bytes = word.as_bytes();
    !bytes.is_empty() && bytes[0] == b'-'
}

// Whether some word does.
#[tactic(auto, using(script_text::proofs::Clean::list_any_map))]
fn has_dashed(words: &[String]) -> bool
    ensures { result ≡ list_any is_dashed (map string_bytes words.now) }
{
    is_any_dashed(words)
}

fn is_any_dashed(words: &[String]) -> bool
    ensures { result ≡ list_any (λ word. is_dashed (string_bytes word)) words.now }
{
    words.iter().any(|word| is_dashed(word.as_str()))
}

fn is_digits(word: &[u8]) -> bool
    ensures { result ≡ list_all is_ascii_digit word.now }
{
    word.iter().all(|b| b.is_ascii_digit())
}

// The number that the word writes in decimal digits.
#[tactic(auto, using(script_text::proofs::Numbers::number_parsed, script_text::proofs::Numbers::no_number_long, script_text::proofs::Numbers::no_number_other))]
fn number_of(word: &str) -> Option<u64>
    ensures { result ≡ number_of word.now }
{
    if word.len() > 20 || !is_digits(word.as_bytes()) {
        return None;
    }
    word.parse::<u64>().ok()
}

// Whether a file may have this name.
fn is_file(word: &str) -> bool
    ensures { result ≡ is_file word.now }
{
    let bytes = word.as_bytes();
    !bytes.is_empty() && bytes.len() as u64 <= NAME_BYTES && is_printable(bytes)
}

// Whether each byte is a printable one and no space.
fn is_printable(bytes: &[u8]) -> bool
    ensures { result ≡ list_all is_name_byte bytes.now }
{
    bytes.iter().all(|b| *b >= b'!' && *b <= b'~')
}

// The size of a block that the word names.
#[tactic(auto, unfolding(crate::specs::Words::block_size_of))]
fn block_size_of(word: &str) -> Option<u32>
    ensures { result ≡ block_size_of word.now }
{
    match number_of(word) {
        Some(size) => {
            if size == 512 || size == 1024 || size == 2048 || size == 4096 {
                Some(size as u32)
            } else {
                None
            }
        }
        None => None,
    }
}

// Whether there may be so many clients with so many lines each.
fn are_counts(clients: u64, lines: u64) -> bool
    ensures { result ≡ are_counts clients lines }
{
    1 <= clients
        && clients <= 64
        && 1 <= lines
        && u128::from(clients) * u128::from(lines) <= 100_000
}

// The size of a block that stands behind the name of a file.
#[tactic(auto, unfolding(crate::specs::Words::file_size))]
fn file_size(file: &str, size: &str) -> Option<u32>
    ensures { result ≡ file_size file.now size.now }
{
    if is_file(file) {
        block_size_of(size)
    } else {
        None
    }
}

// The row `probe`. The error is want of memory.
fn probe_row(alloc: Global, file: &str, size: &str) -> Result<Option<Row>, AllocError>
    ensures row { IfOk result (λ row. row
        ≡ sized_row (Row.Probe file.now) (file_size file.now size.now)) }
    ensures memory { OnErr result (is_file_row (sized_row (Row.Probe file.now)
        (file_size file.now size.now)) ≡ true) }
{
    match file_size(file, size) {
        Some(size) => {
            let file = Name::copy_of(alloc, file)?;
            Ok(Some(Row::Probe { file, size }))
        }
        None => Ok(None),
    }
}

// The row `paths`. The error is want of memory.
fn paths_row(alloc: Global, file: &str, size: &str) -> Result<Option<Row>, AllocError>
    ensures row { IfOk result (λ row. row
        ≡ sized_row (Row.Paths file.now) (file_size file.now size.now)) }
    ensures memory { OnErr result (is_file_row (sized_row (Row.Paths file.now)
        (file_size file.now size.now)) ≡ true) }
{
    match file_size(file, size) {
        Some(size) => {
            let file = Name::copy_of(alloc, file)?;
            Ok(Some(Row::Paths { file, size }))
        }
        None => Ok(None),
    }
}

// The row `gen`.
#[tactic(auto, unfolding(crate::specs::Words::generated_row))]
fn generated_row(number: &str, clients: &str, lines: &str) -> Option<Row>
    ensures row { result ≡ generated_row number.now clients.now lines.now }
    ensures counts { IfGenerated result (λ _ clients lines. are_counts clients lines ≡ true) }
{
    let number = number_of(number)?;
    let clients = number_of(clients)?;
    let lines = number_of(lines)?;
    if are_counts(clients, lines) {
        Some(Row::Generated {
            number,
            clients,
            lines,
        })
    } else {
        None
    }
}

// The row that words are in of which none begins with `-`. The error is want of memory.
#[tactic(auto, unfolding(crate::specs::Words::row_by))]
fn row_by(alloc: Global, words: &[String]) -> Result<Option<Row>, AllocError>
    ensures row { IfOk result (λ row. row ≡ row_by (map string_bytes words.now)) }
    ensures counts { IfOk result (λ row. IfGenerated row (λ _ clients lines.
        are_counts clients lines ≡ true)) }
    ensures memory { OnErr result (is_file_row (row_by (map string_bytes words.now)) ≡ true) }
{
    match words {
        [word] if word.as_str() == "plain" => Ok(Some(Row::Plain)),
        [word, file, size] if word.as_str() == "probe" => {
            probe_row(alloc, file.as_str(), size.as_str())
        }
        [word, file, size] if word.as_str() == "paths" => {
            paths_row(alloc, file.as_str(), size.as_str())
        }
        [word, number, clients, lines] if word.as_str() == "gen" => Ok(generated_row(
            number.as_str(),
            clients.as_str(),
            lines.as_str(),
        )),
        _ => Ok(None),
    }
}

/// The row of the table that the words are in, or none. The error is want of memory, where they are in a row that keeps the
/// name of a file.
#[tactic(auto, unfolding(crate::specs::Words::row_of))]
pub fn row_of(alloc: Global, words: &[String]) -> Result<Option<Row>, AllocError>
    ensures row { IfOk result (λ row. row ≡ row_of (map string_bytes words.now)) }
    ensures counts { IfOk result (λ row. IfGenerated row (λ _ clients lines.
        are_counts clients lines ≡ true)) }
    ensures memory { OnErr result (is_file_row (row_of (map string_bytes words.now)) ≡ true) }
{
    if has_dashed(words) {
        return Ok(None);
    }
    row_by(alloc, words)
}
