#![tactic(auto, unfolding(crate::specs::Generated::request_text, crate::specs::Generated::with_line, script_text::specs::Text::line_of))]

ghost use Rattle.std.specs.Prelude.{◌≡◌, ◌*◌, ◌≤◌, string_bytes, IfOk, OnOk};
ghost use Rattle.stack_run.specs.Generated.{place_of, length_of, fill_text, read_text, request_text, made_of, with_line, with_client, generated_text, IsGeneratedScript};

use rand_core::SeedableRng;
use rand_core::utils::NextWord;
use rand_xoshiro::SplitMix64;
use std::alloc::{AllocError, Global};

// The lines so far, and where the next words come from.
#[derive(Drop)]
struct Draft {
    text: Vec<u8>,
    words: SplitMix64,
}

// The place in bytes that a word gives.
fn place_in(word: u64) -> u64
    ensures { result ≡ place_of word }
{
    word / 8 % 1_046_528
}

// The length in bytes that a word gives.
fn length_in(word: u64) -> u64
    ensures { result ≡ length_of word }
{
    1 + word / (1 << 32) % 2048
}

// A fill of the place, the length and the byte that a word gives.
fn fill_line(alloc: Global, word: u64) -> Result<String, AllocError>
    ensures { IfOk result (λ line. string_bytes line ≡ fill_text word) }
{
    let at = place_in(word);
    let length = length_in(word);
    let byte = word / (1 << 56);
    format!(in alloc; "fill {at} {length} {byte:02x}\n")
}

// A read of the place and the length that a word gives.
fn read_line(alloc: Global, word: u64) -> Result<String, AllocError>
    ensures { IfOk result (λ line. string_bytes line ≡ read_text word) }
{
    let at = place_in(word);
    let length = length_in(word);
    format!(in alloc; "read {at} {length}\n")
}

// The line that a word gives.
fn request_line(alloc: Global, word: u64) -> Result<String, AllocError>
    ensures { IfOk result (λ line. string_bytes line ≡ request_text word) }
{
    let choice = word % 8;
    if choice < 4 {
        fill_line(alloc, word)
    } else if choice < 7 {
        read_line(alloc, word)
    } else {
        String::from_str(alloc, "flush\n")
    }
}

// Adds line `place` of a client, from 1: each sixteenth is a wait and draws no word.
fn add_line(alloc: Global, draft: &mut Draft, place: u64) -> Result<(), AllocError>
    ensures { OnOk result (made_of draft.new ≡ with_line place (made_of draft.old)) }
{
    if place % 16 == 0 {
        return draft.text.extend_from_slice(b"wait\n");
    }
    let line = request_line(alloc, draft.words.next_word())?;
    draft.text.extend_from_slice(line.as_bytes())?;
    Ok(())
}

// Adds a client with so many lines.
fn add_client(alloc: Global, draft: &mut Draft, lines: u64) -> Result<(), AllocError>
    requires { lines ≤ 100000 }
    ensures { OnOk result (made_of draft.new ≡ with_client lines (made_of draft.old)) }
{
    draft.text.extend_from_slice(b"client\n")?;
    for done in 0..lines {
        add_line(alloc, draft, done + 1)?;
    }
    Ok(())
}

/// The script that a number makes: one disk `g` of blocks of 512 bytes with one worker, and so many clients, each with so
/// many lines (own profile). There are 1 to 64 clients with at least one line each, at most 100,000 lines in all. The error
/// is want of memory.
pub fn generate(alloc: Global, number: u64, clients: u64, lines: u64) -> Result<Vec<u8>, AllocError>
    requires clients { 1 ≤ clients }
    requires most { clients ≤ 64 }
    requires lines { 1 ≤ lines }
    requires all { clients * lines ≤ 100000 }
    ensures text { IfOk result (λ text. text.items ≡ generated_text number clients lines) }
    ensures script { IfOk result (λ text. IsGeneratedScript text.items) }
{
    let mut draft = Draft {
        text: Vec::from_slice(alloc, b"disk g 512 1\n")?,
        words: SplitMix64::from_seed(number.to_le_bytes()),
    };
    for _ in 0..clients {
        add_client(alloc, &mut draft, lines)?;
    }
    Ok(draft.text)
}
