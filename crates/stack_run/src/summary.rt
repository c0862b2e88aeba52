#![tactic(auto, unfolding(crate::specs::Figures::figures_of, script_text::specs::Text::line_of))]

ghost use Rattle.std.specs.Prelude.{◌≡◌, ℕ, ◌+◌, ◌*◌, ◌^◌, ◌<◌, ◌++◌, [], ◌∷◌, length, codes, string_bytes, Some, IfOk, OnOk};
ghost use Rattle.history.specs.Setup.{Setup};
ghost use Rattle.script_text.specs.Report.{AreEnds, is_success};
ghost use Rattle.script_text.specs.Tables.{digits_of};
ghost use Rattle.script_text.specs.Text.{line_of};
ghost use Rattle.stack_run.specs.Figures.{is_success_by, with_moved, with_accepted, figures_with, no_figures, figures_of, AreWithin};
ghost use Rattle.stack_run.specs.Summary.{figure_text, summary_text};

use efi_status::Status;
use history::{Asked, Entry, History, Kind};
use script_text::TokenLine;
use std::alloc::{AllocError, Global};

// What entries did, in numbers.
#[derive(Clone, Copy)]
struct Figures {
    accepted: u64,
    refused: u64,
    commands: u64,
    written: u128,
    read: u128,
}

// The figures with those of one more request that succeeded.
fn with_moved(figures: Figures, asked: &Asked) -> Figures
    requires written { figures.written < 2 ^ 127 }
    requires read { figures.read < 2 ^ 127 }
    ensures figures { result ≡ with_moved asked.now.kind asked.now.length figures }
    ensures within { (n : ℕ) → AreWithin n figures → AreWithin (n + 1) result }
    ensures accepted { result.accepted ≡ figures.accepted }
{
    let length = u128::from(asked.length);
    match asked.kind {
        Kind::Read => Figures {
            read: figures.read + length,
            ..figures
        },
        Kind::Write => Figures {
            written: figures.written + length,
            ..figures
        },
        Kind::Flush => figures,
        Kind::Erase => figures,
    }
}

// Whether a token succeeded by these lines.
fn has_succeeded(ends: &[TokenLine], token: u64) -> bool
    ensures { result ≡ is_success_by ends.now token }
{
    match ends.get(token as usize) {
        Some(line) => line.status == Status::Success,
        None => false,
    }
}

// The figures with those of one more request that was accepted.
fn with_accepted(figures: Figures, asked: &Asked, ends: &[TokenLine]) -> Figures
    requires accepted { figures.accepted < 2 ^ 63 }
    requires written { figures.written < 2 ^ 127 }
    requires read { figures.read < 2 ^ 127 }
    ensures figures { result ≡ with_accepted (is_success_by ends.now figures.accepted) asked.now figures }
    ensures within { (n : ℕ) → AreWithin n figures → AreWithin (n + 1) result }
{
    let accepted = figures.accepted + 1;
    if has_succeeded(ends, figures.accepted) {
        let moved = with_moved(figures, asked);
        Figures { accepted, ..moved }
    } else {
        Figures {
            accepted,
            ..figures
        }
    }
}

// The figures with those of one more entry.
fn with_entry(figures: Figures, entry: &Entry, ends: &[TokenLine]) -> Figures
    requires accepted { figures.accepted < 2 ^ 63 }
    requires refused { figures.refused < 2 ^ 63 }
    requires commands { figures.commands < 2 ^ 63 }
    requires written { figures.written < 2 ^ 127 }
    requires read { figures.read < 2 ^ 127 }
    ensures figures { result ≡ figures_with ends.now entry.now figures }
    ensures within { (n : ℕ) → AreWithin n figures → AreWithin (n + 1) result }
{
    match entry {
        Entry::Accept { asked, .. } => with_accepted(figures, asked, ends),
        Entry::Refuse { .. } => Figures {
            refused: figures.refused + 1,
            ..figures
        },
        Entry::Done { .. } | Entry::Fault { .. } => Figures {
            commands: figures.commands + 1,
            ..figures
        },
        Entry::Collect { .. }
        | Entry::Cancel { .. }
        | Entry::Reset { .. }
        | Entry::Eject { .. }
        | Entry::Insert { .. }
        | Entry::Protect { .. } => figures,
    }
}

// The figures of all entries, whose tokens ended so.
fn all_figures(history: &History, ends: &[TokenLine]) -> Figures
    ensures { result ≡ figures_of ends.now history.now.entries }
{
    let mut figures = Figures {
        accepted: 0,
        refused: 0,
        commands: 0,
        written: 0,
        read: 0,
    };
    // There are fewer than 2^63.
    history.len();
    for entry in history.entries() {
        figures = with_entry(figures, entry, ends);
    }
    figures
}

// Adds a line of a word and a number. The error is want of memory.
fn add_figure(alloc: Global, text: &mut String, word: &str, number: u128) -> Result<(), AllocError>
    ensures { OnOk result (string_bytes text.new ≡ string_bytes text.old ++ figure_text word.now number) }
{
    let line = format!(in alloc; "{word} {number}\n")?;
    text.push_str(line.as_str())?;
    Ok(())
}

// The line of a CRC32. The error is want of memory.
fn crc_line(alloc: Global, crc: u32) -> Result<String, AllocError>
    ensures { IfOk result (λ line. string_bytes line ≡ line_of (codes "crc" ∷ digits_of 8 crc ∷ [])) }
{
    format!(in alloc; "crc {crc:08x}\n")
}

/// The summary of a history whose tokens ended so, over an image with this CRC32: seven lines (own profile). The error is
/// want of memory.
pub fn summary_of(
    alloc: Global,
    history: &History,
    ends: &[TokenLine],
    crc: u32,
) -> Result<String, AllocError>
    ensures text { (S : Setup) → AreEnds S history.now.entries ends.now
        → IfOk result (λ text. string_bytes text ≡ summary_text S history.now.entries crc) }
{
    let figures = all_figures(history, ends);
    let mut text = String::new(alloc);
    add_figure(alloc, &mut text, "entries", u128::from(history.len()))?;
    add_figure(alloc, &mut text, "accepted", u128::from(figures.accepted))?;
    add_figure(alloc, &mut text, "refused", u128::from(figures.refused))?;
    add_figure(alloc, &mut text, "commands", u128::from(figures.commands))?;
    add_figure(alloc, &mut text, "written", figures.written)?;
    add_figure(alloc, &mut text, "read", figures.read)?;
    text.push_str(crc_line(alloc, crc)?.as_str())?;
    Ok(text)
}
