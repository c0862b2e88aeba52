ghost use Rattle.std.specs.Prelude.{◌≡◌, ◌<◌, ℕ, length, map};
ghost use Rattle.script_text.specs.Replies.{Says};
ghost use Rattle.script_text.specs.Wording.{is_aimed, physical_of, flags_of, disk_words, spare_words, client_words, aimed_words, is_mark, last_word, line_of_kind, line_of_words, line_of_bytes};

use crate::language::line::{Flags, Line};
use crate::language::names::Name;
use crate::language::refusal::{LineRefused, Reason};
use crate::language::{aims, single_words, words};
use std::alloc::Global;
use std::str;

/// What a line says by its words; a comment and a line without words say nothing.
#[tactic(auto, using(crate::proofs::Clean::clean_is_text), unfolding(crate::specs::Wording::line_of_bytes))]
pub fn read_line(alloc: Global, line: &[u8]) -> Result<Option<Line>, LineRefused>
    ensures { Says (line_of_bytes line.now) result }
{
    if words::is_comment(line) {
        return Ok(None);
    }
    if !words::is_clean(line) {
        return Err(LineRefused::Faulty(Reason::Form));
    }
    let Ok(text) = str::from_utf8(line) else {
        return Err(LineRefused::Faulty(Reason::Form));
    };
    let words = words::words_of(alloc, text)?;
    line_of_words(alloc, &words)
}

#[tactic(auto, unfolding(crate::specs::Wording::line_of_words))]
fn line_of_words(alloc: Global, words: &[&str]) -> Result<Option<Line>, LineRefused>
    ensures { Says (line_of_words (map (λ word. word.now) words.now)) result }
{
    if words.is_empty() {
        return Ok(None);
    }
    match line_of_kind(alloc, words[0], &words[1..]) {
        Ok(line) => Ok(Some(line)),
        Err(refused) => Err(refused),
    }
}

#[tactic(auto, unfolding(crate::specs::Wording::line_of_kind))]
fn line_of_kind(alloc: Global, first: &str, words: &[&str]) -> Result<Line, LineRefused>
    ensures { Says (line_of_kind first.now (map (λ word. word.now) words.now)) result }
{
    if first == "disk" {
        disk_words(alloc, words)
    } else if first == "spare" {
        spare_words(alloc, words)
    } else if first == "client" {
        client_words(words)
    } else if is_aimed(first) {
        aimed_words(alloc, first, words)
    } else {
        match aims::whole_order(first, words) {
            Ok(order) => Ok(Line::Asks { order, mark: None }),
            Err(refused) => Err(refused),
        }
    }
}

fn is_aimed(first: &str) -> bool
    ensures { result ≡ is_aimed first.now }
{
    first == "write"
        || first == "fill"
        || first == "read"
        || first == "wblocks"
        || first == "rblocks"
        || first == "erase"
        || first == "flush"
        || first == "cancel"
}

#[tactic(auto, unfolding(crate::specs::Wording::disk_words))]
fn disk_words(alloc: Global, words: &[&str]) -> Result<Line, LineRefused>
    ensures { Says (disk_words (map (λ word. word.now) words.now)) result }
{
    if words.len() < 3 || single_words::has_fixed(&words[..3]) {
        return Err(LineRefused::Faulty(Reason::Form));
    }
    let flags = match flags_of(&words[3..]) {
        Ok(flags) => flags,
        Err(refused) => return Err(refused),
    };
    let Some(size) = words::number_of(words[1]) else {
        return Err(LineRefused::Faulty(Reason::Number));
    };
    let Some(workers) = words::number_of(words[2]) else {
        return Err(LineRefused::Faulty(Reason::Number));
    };
    let image = Name::copy_of(alloc, words[0])?;
    Ok(Line::Disk {
        image,
        size,
        workers,
        flags,
    })
}

#[tactic(auto, unfolding(crate::specs::Wording::flags_of))]
fn flags_of(words: &[&str]) -> Result<Flags, LineRefused>
    ensures { Says (flags_of (map (λ word. word.now) words.now)) result }
{
    let cached = single_words::begins_with("cached", words);
    let rest = single_words::words_after("cached", words);
    let protected = single_words::begins_with("protected", rest);
    match physical_of(single_words::words_after("protected", rest)) {
        Ok(physical) => Ok(Flags {
            cached,
            protected,
            physical,
        }),
        Err(refused) => Err(refused),
    }
}

#[tactic(auto, unfolding(crate::specs::Wording::physical_of))]
fn physical_of(words: &[&str]) -> Result<u32, LineRefused>
    ensures { Says (physical_of (map (λ word. word.now) words.now)) result }
{
    if words.is_empty() {
        return Ok(1);
    }
    let [word, number] = words else {
        return Err(LineRefused::Faulty(Reason::Form));
    };
    if *word != "physical" || single_words::is_fixed(number) {
        return Err(LineRefused::Faulty(Reason::Form));
    }
    match single_words::short_number_of(number) {
        Some(physical) => Ok(physical),
        None => Err(LineRefused::Faulty(Reason::Number)),
    }
}

#[tactic(auto, unfolding(crate::specs::Wording::spare_words))]
fn spare_words(alloc: Global, words: &[&str]) -> Result<Line, LineRefused>
    ensures { Says (spare_words (map (λ word. word.now) words.now)) result }
{
    let [image] = words else {
        return Err(LineRefused::Faulty(Reason::Form));
    };
    if single_words::is_fixed(image) {
        return Err(LineRefused::Faulty(Reason::Form));
    }
    let image = Name::copy_of(alloc, image)?;
    Ok(Line::Spare { image })
}

#[tactic(auto, unfolding(crate::specs::Wording::client_words))]
fn client_words(words: &[&str]) -> Result<Line, LineRefused>
    ensures { Says (client_words (map (λ word. word.now) words.now)) result }
{
    if words.is_empty() {
        return Ok(Line::Client { part: None });
    }
    let [word, number] = words else {
        return Err(LineRefused::Faulty(Reason::Form));
    };
    if *word != "part" || single_words::is_fixed(number) {
        return Err(LineRefused::Faulty(Reason::Form));
    }
    match single_words::short_number_of(number) {
        Some(part) => Ok(Line::Client { part: Some(part) }),
        None => Err(LineRefused::Faulty(Reason::Number)),
    }
}

fn ends_in_mark(words: &[&str]) -> bool
    ensures { result ≡ is_mark (last_word (map (λ word. word.now) words.now)) }
{
    !words.is_empty() && single_words::is_mark(words[words.len() - 1])
}

#[tactic(auto, unfolding(crate::specs::Wording::aimed_words))]
fn aimed_words(alloc: Global, first: &str, words: &[&str]) -> Result<Line, LineRefused>
    ensures { Says (aimed_words first.now (map (λ word. word.now) words.now)) result }
{
    if !ends_in_mark(words) {
        return match aims::plain_order(alloc, first, 1, words) {
            Ok(order) => Ok(Line::Asks { order, mark: None }),
            Err(refused) => Err(refused),
        };
    }
    let last = words.len() - 1;
    let Some(medium) = single_words::number_behind(words[last]) else {
        return Err(LineRefused::Faulty(Reason::Form));
    };
    match aims::plain_order(alloc, first, medium, &words[..last]) {
        Ok(order) => Ok(Line::Asks {
            order,
            mark: Some(medium),
        }),
        Err(refused) => Err(refused),
    }
}
