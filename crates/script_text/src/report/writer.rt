ghost use Rattle.std.specs.Prelude.{◌≡◌, string_bytes};
ghost use Rattle.image_store.specs.Edge.{PutsText, HasCauseOf};
ghost use Rattle.history.specs.Setup.{Setup, per_of};
ghost use Rattle.script_text.specs.Held.{AddsText};
ghost use Rattle.script_text.specs.Entries.{entries_text};
ghost use Rattle.script_text.specs.Report.{head_text, body_text, ended_text, ends_text, media_text, givens_of, AreEnds};

use crate::language::plans::DiskPlan;
use crate::report::entries::entry_line;
use crate::report::parts::{KeptMedium, ReportFault, TokenLine};
use crate::report::{pieces, tokens};
use history::{Entry, History};
use image_store::Sink;
use std::alloc::Global;

/// Writes the first line of a disk: its number from 1, its image, its block size in bytes, its blocks, and the blocks of
/// a group where it has more than one (own profile).
/// After a fault a front of the line was written. `Failed` comes only where the sink's faults rose.
#[tactic(auto, using(crate::proofs::HeldText::none_put))]
pub fn report_head<O: Sink>(
    alloc: Global,
    number: u32,
    plan: &DiskPlan,
    blocks: u64,
    out: &mut O,
) -> Result<(), ReportFault>
    ensures text { PutsText (O.outlet out.old).wrote (O.outlet out.new).wrote result
        (head_text number plan.now.image plan.now.size blocks plan.now.physical) }
    ensures cause { HasCauseOf ReportFault.Failed (O.outlet out.old).faults (O.outlet out.new).faults result }
{
    match tokens::head_line(
        alloc,
        number,
        plan.image.as_str(),
        plan.size,
        blocks,
        plan.physical,
    ) {
        Ok(line) => pieces::put(out, line.as_str()),
        Err(_) => Err(ReportFault::Memory),
    }
}

/// Writes the lines behind the first: entries, tokens and media (own profile). The token lines say how the history's
/// tokens ended, and a group of the disk has so many blocks. After a fault a front of the text was written. `Failed`
/// comes only where the sink's faults rose.
pub fn report_body<O: Sink>(
    alloc: Global,
    per: u32,
    history: &History,
    ends: &[TokenLine],
    media: &[KeptMedium],
    out: &mut O,
) -> Result<(), ReportFault>
    ensures text { (S : Setup) → per_of S ≡ per → AreEnds S history.now.entries ends.now
        → PutsText (O.outlet out.old).wrote (O.outlet out.new).wrote result
        (body_text S history.now.entries (givens_of ends.now) media.now) }
    ensures cause { HasCauseOf ReportFault.Failed (O.outlet out.old).faults (O.outlet out.new).faults result }
{
    put_body(alloc, per, history, ends, media, out)
}

#[tactic(auto, using(crate::proofs::HeldText::none_put))]
fn put_body<O: Sink>(
    alloc: Global,
    per: u32,
    history: &History,
    ends: &[TokenLine],
    media: &[KeptMedium],
    out: &mut O,
) -> Result<(), ReportFault>
    ensures text { PutsText (O.outlet out.old).wrote (O.outlet out.new).wrote result
        (ended_text per history.now.entries ends.now media.now) }
    ensures cause { HasCauseOf ReportFault.Failed (O.outlet out.old).faults (O.outlet out.new).faults result }
{
    let entries = history.entries();
    let tagged = match tokens::tagged_reads(alloc, entries) {
        Ok(tagged) => tagged,
        Err(_) => return Err(ReportFault::Memory),
    };
    let mut held = String::new(alloc);
    match add_entries(alloc, per, entries, &mut held, out) {
        Ok(()) => {}
        Err(fault) => return Err(fault),
    }
    match add_tokens(alloc, &tagged, ends, &mut held, out) {
        Ok(()) => {}
        Err(fault) => return Err(fault),
    }
    match add_media(alloc, media, &mut held, out) {
        Ok(()) => pieces::put(out, held.as_str()),
        Err(fault) => Err(fault),
    }
}

pub fn add_entries<O: Sink>(
    alloc: Global,
    per: u32,
    entries: &[Entry],
    held: &mut String,
    out: &mut O,
) -> Result<(), ReportFault>
    ensures text { AddsText (O.outlet out.old).wrote (string_bytes held.old) result
        (O.outlet out.new).wrote (string_bytes held.new) (entries_text per entries.now) }
    ensures cause { HasCauseOf ReportFault.Failed (O.outlet out.old).faults (O.outlet out.new).faults result }
{
    for (place, entry) in entries.iter().enumerate() {
        match pieces::add_made(held, out, entry_line(alloc, per, place as u64, entry)) {
            Ok(()) => {}
            Err(fault) => return Err(fault),
        }
    }
    Ok(())
}

fn add_tokens<O: Sink>(
    alloc: Global,
    tagged: &[bool],
    ends: &[TokenLine],
    held: &mut String,
    out: &mut O,
) -> Result<(), ReportFault>
    ensures text { AddsText (O.outlet out.old).wrote (string_bytes held.old) result
        (O.outlet out.new).wrote (string_bytes held.new) (ends_text tagged.now ends.now) }
    ensures cause { HasCauseOf ReportFault.Failed (O.outlet out.old).faults (O.outlet out.new).faults result }
{
    for (token, end) in ends.iter().enumerate() {
        let tagged = tokens::is_tagged(tagged, token);
        match pieces::add_made(
            held,
            out,
            tokens::token_line(alloc, token as u64, tagged, end),
        ) {
            Ok(()) => {}
            Err(fault) => return Err(fault),
        }
    }
    Ok(())
}

fn add_media<O: Sink>(
    alloc: Global,
    media: &[KeptMedium],
    held: &mut String,
    out: &mut O,
) -> Result<(), ReportFault>
    ensures text { AddsText (O.outlet out.old).wrote (string_bytes held.old) result
        (O.outlet out.new).wrote (string_bytes held.new) (media_text media.now) }
    ensures cause { HasCauseOf ReportFault.Failed (O.outlet out.old).faults (O.outlet out.new).faults result }
{
    for (place, medium) in media.iter().enumerate() {
        match pieces::add_made(
            held,
            out,
            tokens::medium_line(alloc, place as u64 + 1, medium),
        ) {
            Ok(()) => {}
            Err(fault) => return Err(fault),
        }
    }
    Ok(())
}
