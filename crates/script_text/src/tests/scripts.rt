use super::NAME_OF_255;
use crate::{Reason, Script, ScriptReader, ScriptRefused, read_pieces, read_script};
use history::{Asked, Kind, Order, Payload, UnitKind};
use std::alloc::{AllocError, Global};
use std::test::Fail;

fn shown_payload(alloc: Global, payload: &Payload) -> Result<String, AllocError> {
    match payload {
        Payload::Nothing => Ok(String::new(alloc)),
        Payload::Fill(byte) => format!(in alloc; " of {byte}"),
        Payload::Given(bytes) => {
            let bytes = hex::encode(alloc, bytes.as_slice())?;
            format!(in alloc; " {bytes}")
        }
    }
}

fn shown_request(alloc: Global, asked: Asked, payload: &Payload) -> Result<String, AllocError> {
    let kind = match asked.kind {
        Kind::Read => "read",
        Kind::Write => "write",
        Kind::Flush => "flush",
        Kind::Erase => "erase",
    };
    let unit = match asked.unit {
        UnitKind::Bytes => "bytes",
        UnitKind::Blocks => "blocks",
    };
    let payload = shown_payload(alloc, payload)?;
    let Asked { at, length, .. } = asked;
    format!(in alloc; " {kind} {unit} {at} {length}{payload}")
}

fn shown_order(alloc: Global, order: &Order) -> Result<String, AllocError> {
    match order {
        Order::Request {
            asked,
            payload,
            media_id,
        } => {
            let request = shown_request(alloc, *asked, payload)?;
            format!(in alloc; "{request} @{media_id}")
        }
        Order::Wait => String::from_str(alloc, " wait"),
        Order::Cancel { media_id } => format!(in alloc; " cancel @{media_id}"),
        Order::Reset => String::from_str(alloc, " reset"),
        Order::Eject => String::from_str(alloc, " eject"),
        Order::Insert => String::from_str(alloc, " insert"),
        Order::Protect { on } => format!(in alloc; " protect {on}"),
    }
}

// Each disk with its numbers, its spares, and its clients with the lines that begin them.
fn shown_script(alloc: Global, script: &Script) -> Result<String, AllocError> {
    let mut text = String::new(alloc);
    for disk in script.disks.as_slice() {
        let size = disk.size;
        let workers = disk.workers;
        let cached = disk.cached;
        let protected = disk.protected;
        let physical = disk.physical;
        let count = disk.image.as_str().len();
        text.push_str(format!(in alloc;
            "[{count} {size} {workers} {cached} {protected} {physical}"
        )?.as_str())?;
        for spare in disk.spares.as_slice() {
            text.push_str(" +")?;
            text.push_str(spare.as_str())?;
        }
        for client in disk.clients.as_slice() {
            let part = client.part.unwrap_or(0);
            let line = client.line;
            text.push_str(format!(in alloc; "; {part} from {line}:")?.as_str())?;
            for order in client.orders.as_slice() {
                text.push_str(shown_order(alloc, order)?.as_str())?;
            }
        }
        text.push_str("]")?;
    }
    Ok(text)
}

fn word_of(reason: Reason) -> &'static str {
    match reason {
        Reason::Form => "form",
        Reason::Number => "number",
        Reason::Hex => "hex",
        Reason::Order => "order",
        Reason::Name => "name",
        Reason::Medium => "medium",
        Reason::Limit => "limit",
        Reason::Size => "size",
        Reason::Part => "part",
    }
}

fn shown_answer(
    alloc: Global,
    answer: Result<Script, ScriptRefused>,
) -> Result<String, AllocError> {
    match answer {
        Ok(script) => shown_script(alloc, &script),
        Err(ScriptRefused::Fault { line, reason }) => {
            let word = word_of(reason);
            format!(in alloc; "line {line} {word}")
        }
        Err(ScriptRefused::Memory) => String::from_str(alloc, "memory"),
    }
}

fn shown(alloc: Global, script: &[u8]) -> Result<String, AllocError> {
    shown_answer(alloc, read_script(alloc, script))
}

const FIRST: &[u8] = b"disk a.img 512 1\r\nclient\r\nwrite 510 aabbccdd\r\nwait\r\nread 508 8\r\n";

const FIRST_SHOWN: &str =
    "[5 512 1 false false 1; 0 from 2: write bytes 510 4 aabbccdd @1 wait read bytes 508 8 @1]";

const SCRIPTS: [(&[u8], &str); 27] = [
    (
        b"disk a.img 512 1\nclient\nwrite 510 aabbccdd\nwait\nread 508 8\n",
        FIRST_SHOWN,
    ),
    (FIRST, FIRST_SHOWN),
    (
        b"disk a.img 512 1\nclient\nwrite 510 aabbccdd\nwait\nread 508 8\r",
        FIRST_SHOWN,
    ),
    (b"", ""),
    (b"\n# x\n   \n\r\n#\xff\xff\n\n", ""),
    (
        b"  disk   a  512 01 \nclient\n wait ",
        "[1 512 1 false false 1; 0 from 2: wait]",
    ),
    (b"disk disk 1024 16 cached\n", "[4 1024 16 true false 1]"),
    (
        b"disk a 2048 1 protected physical 8",
        "[1 2048 1 false true 8]",
    ),
    (
        b"disk a 4096 1 cached protected physical 02",
        "[1 4096 1 true true 2]",
    ),
    (
        b"disk mirror 512 1\nspare b\nspare c\nclient part 7\nclient",
        "[6 512 1 false false 1 +b +c; 7 from 4:; 0 from 5:]",
    ),
    (
        b"disk a 512 1\nclient part 4294967295\ndisk b 512 1\nspare c",
        "[1 512 1 false false 1; 4294967295 from 2:][1 512 1 false false 1 +c]",
    ),
    (
        b"disk a 512 1\nspare b\nclient\nwrite 0 - @2\nfill 1 16777216 5A\nread 18446744073709551615 0 @1",
        "[1 512 1 false false 1 +b; 0 from 3: write bytes 0 0  @2 write bytes 1 16777216 of 90 @1 read bytes 18446744073709551615 0 @1]",
    ),
    (
        b"disk a 512 1\nspare b\nclient\nwblocks 1 aB\nrblocks 0 700 @2\nerase 3 512 @02",
        "[1 512 1 false false 1 +b; 0 from 3: write blocks 1 1 ab @1 read blocks 0 700 @2 erase blocks 3 512 @2]",
    ),
    (
        b"disk a 512 1\nspare b\nclient\nflush\nflush @2\ncancel\ncancel @2",
        "[1 512 1 false false 1 +b; 0 from 3: flush bytes 0 0 @1 flush bytes 0 0 @2 cancel @1 cancel @2]",
    ),
    (
        b"disk a 512 1\nclient\nwait\nreset\neject\ninsert\nprotect on\nprotect off",
        "[1 512 1 false false 1; 0 from 2: wait reset eject insert protect true protect false]",
    ),
    (b"disk a.img 512 1\nfrob", "line 2 form"),
    (b"client", "line 1 order"),
    (b"spare a", "line 1 order"),
    (b"disk a 512 1\nwait", "line 2 order"),
    (b"disk a 512 1\nclient\nspare b", "line 3 order"),
    (
        b"disk a 512 1\nclient\ndisk b 512 1\nspare a",
        "line 4 name",
    ),
    (b"disk a.img 512 1\nspare a.img", "line 2 name"),
    (b"disk a 512 1\nspare b\ndisk b 512 1", "line 3 name"),
    (b"disk a 512 1\nclient part 1\nflush @1", "line 3 medium"),
    (b"disk a 512 1\r\r\n", "line 1 form"),
    (b"disk a 512 1\n\n # x", "line 3 form"),
    (
        b"disk a 512 1\nclient\nwait\nwrite 0 0 @7\nfrob",
        "line 4 hex",
    ),
];

// First lines of a script, and why they are refused.
const FIRST_LINES: [(&str, &str); 16] = [
    ("disk a 512", "form"),
    ("disk a 512 1 physical", "form"),
    ("disk a 512 1 physical 8 cached", "form"),
    ("disk a 512 1 protected cached", "form"),
    ("disk a 512 1 cached cached", "form"),
    ("disk cached 512 1", "form"),
    ("disk physical x 1", "form"),
    ("disk @a 512 1", "form"),
    ("disk a\t 512 1", "form"),
    ("disk a.img x 1", "number"),
    ("disk a 512 1 physical 4294967296", "number"),
    ("disk a.img 513 1", "limit"),
    ("disk a.img 512 17", "limit"),
    ("disk a 512 0", "limit"),
    ("disk a 512 1 physical 3", "limit"),
    ("disk a 512 1 physical 0", "limit"),
];

// Lines of a client on the whole of a disk with one medium, and why they are refused.
const CLIENT_LINES: [(&str, &str); 26] = [
    ("write 0", "form"),
    ("write on aa", "form"),
    ("write @1 aa", "form"),
    ("write 0 aa @", "form"),
    ("write 0 aa @x", "form"),
    ("write 0 aa @4294967296", "form"),
    ("write 0 aa @1 @1", "form"),
    ("wait @1", "form"),
    ("wait 1", "form"),
    ("protect", "form"),
    ("protect up", "form"),
    ("client part", "form"),
    ("client part part", "form"),
    ("client 1", "form"),
    ("spare on", "form"),
    ("write 18446744073709551616 aa", "number"),
    ("write x x", "number"),
    ("read 000000000000000000000 1", "number"),
    ("client part 4294967296", "number"),
    ("write 0 abc", "hex"),
    ("fill 0 1 5", "hex"),
    ("fill 0 1 -", "hex"),
    ("fill 0 16777217 0g", "hex"),
    ("write 0 aa @2", "medium"),
    ("write 0 aa @0", "medium"),
    ("fill 0 16777217 00", "limit"),
];

#[test]
fn scripts(rt: HostRuntime) -> Result<(), Fail> {
    let alloc = rt.alloc();
    for (script, expected) in SCRIPTS {
        assert_eq!(rt; shown(alloc, script)?.as_str(), expected);
    }
    for (line, reason) in FIRST_LINES {
        let expected = format!(in alloc; "line 1 {reason}")?;
        assert_eq!(rt; shown(alloc, line.as_bytes())?.as_str(), expected.as_str());
    }
    for (line, reason) in CLIENT_LINES {
        let script = format!(in alloc; "disk a.img 512 1\nclient\n{line}\n")?;
        let expected = format!(in alloc; "line 3 {reason}")?;
        assert_eq!(rt;
            shown(alloc, script.as_bytes())?.as_str(),
            expected.as_str()
        );
    }
    Ok(())
}

// So many lines with a number in each, between two other texts.
fn repeated(
    alloc: Global,
    front: &str,
    word: &str,
    count: u64,
    behind: &str,
) -> Result<String, AllocError> {
    let mut text = String::from_str(alloc, front)?;
    for number in 0..count {
        text.push_str(format!(in alloc; "{word} {number}{behind}\n")?.as_str())?;
    }
    Ok(text)
}

#[test]
fn limits(rt: HostRuntime) -> Result<(), Fail> {
    let alloc = rt.alloc();
    let disks = repeated(alloc, "", "disk", 17, " 512 1")?;
    assert_eq!(rt; shown(alloc, disks.as_bytes())?.as_str(), "line 17 limit");
    let media = repeated(alloc, "disk a 512 1\n", "spare", 16, "")?;
    assert_eq!(rt; shown(alloc, media.as_bytes())?.as_str(), "line 17 limit");
    let clients = repeated(alloc, "disk a 512 1\n", "client part", 65, "")?;
    assert_eq!(rt; shown(alloc, clients.as_bytes())?.as_str(), "line 66 limit");
    let mut sums = repeated(alloc, "disk a 512 1\nclient\n", "read", 8, " 16777216")?;
    sums.push_str("disk b 512 1\nclient\n")?;
    let mut sums = repeated(alloc, sums.as_str(), "fill", 8, " 16777216 00")?;
    sums.push_str("write 0 -\nerase 0 1\n")?;
    assert_eq!(rt; shown(alloc, sums.as_bytes())?.as_str(), "line 22 limit");
    let named = format!(in alloc; "disk {NAME_OF_255} 512 1")?;
    assert_eq!(rt;
        shown(alloc, named.as_bytes())?.as_str(),
        "[255 512 1 false false 1]"
    );
    let named = format!(in alloc; "disk x{NAME_OF_255} 512 1")?;
    assert_eq!(rt; shown(alloc, named.as_bytes())?.as_str(), "line 1 name");
    let long = vec![in alloc; b'\n'; 4194305]?;
    assert_eq!(rt; shown(alloc, &long)?.as_str(), "line 0 size");
    let long = vec![in alloc; b'#'; 4194305]?;
    assert_eq!(rt; shown(alloc, &long)?.as_str(), "line 0 size");
    assert_eq!(rt; shown(alloc, &long[1..])?.as_str(), "");
    Ok(())
}

#[test]
fn pieces(rt: HostRuntime) -> Result<(), Fail> {
    let alloc = rt.alloc();
    let mut reader = ScriptReader::make(alloc);
    for byte in FIRST {
        reader.feed(&[*byte])?;
    }
    assert_eq!(rt; shown_answer(alloc, reader.finish())?.as_str(), FIRST_SHOWN);
    for place in 0..FIRST.len() {
        let pieces = [&FIRST[..place], &FIRST[place..]];
        let answer = read_pieces(alloc, &pieces);
        assert_eq!(rt; shown_answer(alloc, answer)?.as_str(), FIRST_SHOWN);
    }
    let answer = read_pieces(alloc, &[b"disk a.img 512 1", b"\nfrob"]);
    assert_eq!(rt; shown_answer(alloc, answer)?.as_str(), "line 2 form");
    let answer = read_pieces(alloc, &[b"x\n", b"", b"y\n"]);
    assert_eq!(rt; shown_answer(alloc, answer)?.as_str(), "line 1 form");
    Ok(())
}
