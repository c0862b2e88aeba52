#![tactic(auto, unfolding(crate::specs::Wording::given_order, crate::specs::Wording::fill_order, crate::specs::Wording::sized_order, crate::specs::Wording::protect_order, crate::specs::Wording::aimed_order, crate::specs::Wording::whole_order, crate::specs::Wording::plain_order))]

ghost use Rattle.std.specs.Prelude.{◌≡◌, map};
ghost use Rattle.script_text.specs.Replies.{Says};
ghost use Rattle.script_text.specs.Wording.{alone, given_order, fill_order, sized_order, aimed_order, plain_order, protect_order, whole_order};

use crate::language::refusal::{LineRefused, Reason};
use crate::language::{single_words, words};
use byte_lists::Bytes;
use history::{Asked, Kind, Order, Payload, UnitKind};
use std::alloc::Global;

/// The words of a line that may name a medium, behind its first.
pub fn plain_order(
    alloc: Global,
    first: &str,
    medium: u32,
    words: &[&str],
) -> Result<Order, LineRefused>
    ensures { Says (plain_order first.now medium (map (λ word. word.now) words.now)) result }
{
    if single_words::has_fixed(words) {
        return Err(LineRefused::Faulty(Reason::Form));
    }
    aimed_order(alloc, first, medium, words)
}

fn aimed_order(
    alloc: Global,
    first: &str,
    medium: u32,
    words: &[&str],
) -> Result<Order, LineRefused>
    ensures { Says (aimed_order first.now medium (map (λ word. word.now) words.now)) result }
{
    if first == "write" {
        given_order(alloc, UnitKind::Bytes, medium, words)
    } else if first == "fill" {
        fill_order(alloc, medium, words)
    } else if first == "read" {
        sized_order(Kind::Read, UnitKind::Bytes, medium, words)
    } else if first == "wblocks" {
        given_order(alloc, UnitKind::Blocks, medium, words)
    } else if first == "rblocks" {
        sized_order(Kind::Read, UnitKind::Blocks, medium, words)
    } else if first == "erase" {
        sized_order(Kind::Erase, UnitKind::Blocks, medium, words)
    } else if first == "flush" {
        alone(flush_of(medium), words)
    } else {
        alone(Order::Cancel { media_id: medium }, words)
    }
}

fn flush_of(medium: u32) -> Order
    ensures { result
        ≡ Order.Request (record { kind = Kind.Flush; unit = UnitKind.Bytes; at = 0; length = 0 })
        Payload.Nothing medium }
{
    let asked = Asked {
        kind: Kind::Flush,
        unit: UnitKind::Bytes,
        at: 0,
        length: 0,
    };
    Order::Request {
        asked,
        payload: Payload::Nothing,
        media_id: medium,
    }
}

fn alone(order: Order, words: &[&str]) -> Result<Order, LineRefused>
    ensures { Says (alone order (map (λ word. word.now) words.now)) result }
{
    if words.is_empty() {
        Ok(order)
    } else {
        Err(LineRefused::Faulty(Reason::Form))
    }
}

fn given_order(
    alloc: Global,
    unit: UnitKind,
    medium: u32,
    words: &[&str],
) -> Result<Order, LineRefused>
    ensures { Says (given_order unit medium (map (λ word. word.now) words.now)) result }
{
    let [at, hex] = words else {
        return Err(LineRefused::Faulty(Reason::Form));
    };
    let Some(at) = words::number_of(at) else {
        return Err(LineRefused::Faulty(Reason::Number));
    };
    let Some(bytes) = words::hex_of(alloc, hex)? else {
        return Err(LineRefused::Faulty(Reason::Hex));
    };
    let asked = Asked {
        kind: Kind::Write,
        unit,
        at,
        length: bytes.len() as u64,
    };
    Ok(Order::Request {
        asked,
        payload: Payload::Given(Bytes::from_vec(bytes)),
        media_id: medium,
    })
}

fn fill_order(alloc: Global, medium: u32, words: &[&str]) -> Result<Order, LineRefused>
    ensures { Says (fill_order medium (map (λ word. word.now) words.now)) result }
{
    let [at, length, byte] = words else {
        return Err(LineRefused::Faulty(Reason::Form));
    };
    let Some(at) = words::number_of(at) else {
        return Err(LineRefused::Faulty(Reason::Number));
    };
    let Some(length) = words::number_of(length) else {
        return Err(LineRefused::Faulty(Reason::Number));
    };
    let Some(byte) = single_words::byte_of(alloc, byte)? else {
        return Err(LineRefused::Faulty(Reason::Hex));
    };
    let asked = Asked {
        kind: Kind::Write,
        unit: UnitKind::Bytes,
        at,
        length,
    };
    Ok(Order::Request {
        asked,
        payload: Payload::Fill(byte),
        media_id: medium,
    })
}

fn sized_order(
    kind: Kind,
    unit: UnitKind,
    medium: u32,
    words: &[&str],
) -> Result<Order, LineRefused>
    ensures { Says (sized_order kind unit medium (map (λ word. word.now) words.now)) result }
{
    let [at, length] = words else {
        return Err(LineRefused::Faulty(Reason::Form));
    };
    let Some(at) = words::number_of(at) else {
        return Err(LineRefused::Faulty(Reason::Number));
    };
    let Some(length) = words::number_of(length) else {
        return Err(LineRefused::Faulty(Reason::Number));
    };
    let asked = Asked {
        kind,
        unit,
        at,
        length,
    };
    Ok(Order::Request {
        asked,
        payload: Payload::Nothing,
        media_id: medium,
    })
}

/// The words of a line that names no medium, behind its first.
pub fn whole_order(first: &str, words: &[&str]) -> Result<Order, LineRefused>
    ensures { Says (whole_order first.now (map (λ word. word.now) words.now)) result }
{
    if first == "wait" {
        alone(Order::Wait, words)
    } else if first == "reset" {
        alone(Order::Reset, words)
    } else if first == "eject" {
        alone(Order::Eject, words)
    } else if first == "insert" {
        alone(Order::Insert, words)
    } else if first == "protect" {
        protect_order(words)
    } else {
        Err(LineRefused::Faulty(Reason::Form))
    }
}

fn protect_order(words: &[&str]) -> Result<Order, LineRefused>
    ensures { Says (protect_order (map (λ word. word.now) words.now)) result }
{
    let [word] = words else {
        return Err(LineRefused::Faulty(Reason::Form));
    };
    if *word == "on" {
        Ok(Order::Protect { on: true })
    } else if *word == "off" {
        Ok(Order::Protect { on: false })
    } else {
        Err(LineRefused::Faulty(Reason::Form))
    }
}
