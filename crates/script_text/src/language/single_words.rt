ghost use Rattle.std.specs.Prelude.{◌≡◌, ◌<◌, length, drop, map, IfOk};
ghost use Rattle.std.specs.List.{list_any};
ghost use Rattle.script_text.specs.Wording.{is_mark, is_fixed_word, short_number_of, only_byte, byte_of, begins_with, words_after};

use crate::language::words;
use std::alloc::{AllocError, Global};
use std::str;

/// Whether the word begins with `@`.
pub fn is_mark(word: &str) -> bool
    ensures { result ≡ is_mark word.now }
{
    let bytes = word.as_bytes();
    !bytes.is_empty() && bytes[0] == b'@'
}

/// Whether the word is wrong outside a place of its own.
pub fn is_fixed(word: &str) -> bool
    ensures { result ≡ is_fixed_word word.now }
{
    is_mark(word)
        || word == "cached"
        || word == "protected"
        || word == "physical"
        || word == "part"
        || word == "on"
        || word == "off"
}

/// Whether some word is wrong where it stands.
pub fn has_fixed(words: &[&str]) -> bool
    ensures { result ≡ list_any is_fixed_word (map (λ word. word.now) words.now) }
{
    is_any_fixed(words)
}

fn is_any_fixed(words: &[&str]) -> bool
    ensures { result ≡ list_any (λ word. is_fixed_word word.now) words.now }
{
    words.iter().any(|word| is_fixed(word))
}

/// The number of 32 bits that the word writes in decimal digits.
#[tactic(auto, unfolding(crate::specs::Wording::short_number_of))]
pub fn short_number_of(word: &str) -> Option<u32>
    ensures { result ≡ short_number_of word.now }
{
    match words::number_of(word) {
        Some(number) => {
            if number <= u64::from(u32::MAX) {
                Some(number as u32)
            } else {
                None
            }
        }
        None => None,
    }
}

/// The number of 32 bits behind the first byte of the word.
pub fn number_behind(word: &str) -> Option<u32>
    requires { 0 < length word.now }
    ensures { result ≡ short_number_of (drop 1 word.now) }
{
    match str::from_utf8(&word.as_bytes()[1..]) {
        Ok(digits) => short_number_of(digits),
        Err(_) => None,
    }
}

/// The byte that the word writes in two hexadecimal digits. The error is want of memory.
#[tactic(auto, unfolding(crate::specs::Wording::byte_of))]
pub fn byte_of(alloc: Global, word: &str) -> Result<Option<u8>, AllocError>
    ensures { IfOk result (λ found. found ≡ byte_of word.now) }
{
    match words::hex_of(alloc, word)? {
        Some(bytes) => Ok(only_byte(&bytes)),
        None => Ok(None),
    }
}

fn only_byte(bytes: &[u8]) -> Option<u8>
    ensures { result ≡ only_byte (Some bytes.now) }
{
    match bytes {
        [byte] => Some(*byte),
        _ => None,
    }
}

/// Whether this word stands in front.
pub fn begins_with(word: &str, words: &[&str]) -> bool
    ensures { result ≡ begins_with word.now (map (λ word. word.now) words.now) }
{
    match words {
        [] => false,
        [first, ..] => *first == word,
    }
}

/// The words behind this one, where it stands in front.
pub fn words_after<'a, 'b>(word: &str, words: &'a [&'b str]) -> &'a [&'b str]
    ensures { map (λ word. word.now) result.now
        ≡ words_after word.now (map (λ word. word.now) words.now) }
{
    if begins_with(word, words) {
        &words[1..]
    } else {
        words
    }
}
