use super::{FIRST, Given, Row, UNCHANGED};
use crate::generate;
use crate::summary::summary_of;
use byte_lists::Bytes;
use efi_status::Status;
use history::{Asked, Command, Entry, History, Kind, UnitKind, View};
use rand_core::SeedableRng;
use rand_core::utils::NextWord;
use rand_xoshiro::SplitMix64;
use script_text::TokenLine;
use std::alloc::{AllocError, Global};
use std::test::Fail;

// A number, how many clients, how many lines each, and the text.
struct Made {
    number: u64,
    clients: u64,
    lines: u64,
    text: &'static str,
}

// The words drawn for 0 begin with these.
const DRAWN: [u64; 2] = [0xe220_a839_7b1d_cdaf, 0x6e78_9e6a_a1b9_65f4];

#[test]
fn draws_words(rt: HostRuntime) {
    let mut words = SplitMix64::from_seed(0u64.to_le_bytes());
    for word in DRAWN {
        assert_eq!(rt; words.next_word(), word);
    }
}

const MADE: [Made; 1] = [Made {
    number: 0,
    clients: 1,
    lines: 2,
    text: "disk g 512 1\nclient\nflush\nread 292030 1643\n",
}];

#[test]
fn makes_scripts(rt: HostRuntime) -> Result<(), Fail> {
    let alloc = rt.alloc();
    for made in &MADE {
        let text = generate(alloc, made.number, made.clients, made.lines)?;
        assert_eq!(rt; text.as_slice(), made.text.as_bytes());
    }
    Ok(())
}

// The summary of a flush and of a read of 1,643 bytes, which lie in four blocks, over zeros.
const SMALL: &str =
    "entries 8\naccepted 2\nrefused 0\ncommands 4\nwritten 0\nread 1643\ncrc a738ea1c\n";

// Each of 16 clients has 62 waits and 938 requests.
const LARGE_SUMMARY: &str =
    "entries 78729\naccepted 15008\nrefused 0\ncommands 48713\nwritten 7637789\nread 5834035\ncrc 4eb5df5f\n";

/// Runs of the row `gen`: the source is not read, and no image has changed.
pub const GENERATED: [Row; 3] = [
    Row {
        given: Given {
            words: &["gen", "0", "1", "2"],
            ..FIRST
        },
        status: 0,
        written: SMALL,
        left: UNCHANGED,
    },
    Row {
        given: Given {
            words: &["gen", "00", "01", "02"],
            ..FIRST
        },
        status: 0,
        written: SMALL,
        left: UNCHANGED,
    },
    Row {
        given: Given {
            words: &["gen", "0", "1", "2"],
            sink_fails: &[0],
            ..FIRST
        },
        status: 5,
        written: "",
        left: UNCHANGED,
    },
];

/// A run of 16,000 lines.
pub const LARGE: Row = Row {
    given: Given {
        words: &["gen", "7", "16", "1000"],
        ..FIRST
    },
    status: 0,
    written: LARGE_SUMMARY,
    left: UNCHANGED,
};

const VIEW: View = View {
    start: 0,
    length: 1_048_576,
    media_id: 1,
    index: 0,
};

fn asked_of(kind: Kind, length: u64) -> Asked {
    Asked {
        kind,
        unit: UnitKind::Bytes,
        at: 0,
        length,
    }
}

fn accept_of(alloc: Global, kind: Kind, length: u64) -> Entry {
    Entry::Accept {
        tag: 1,
        view: VIEW,
        asked: asked_of(kind, length),
        bytes: Bytes::from_vec(Vec::new(alloc)),
    }
}

// A flush and a read, a write of which the first command fails, and one that is refused.
fn entries_of(alloc: Global) -> Result<Vec<Entry>, AllocError> {
    let entries = vec![in alloc;
        accept_of(alloc, Kind::Flush, 0),
        Entry::Done {
            token: 0,
            command: Command::Sync
        },
        accept_of(alloc, Kind::Read, 1643),
        Entry::Done {
            token: 1,
            command: Command::Get { block: 0, count: 4 }
        },
        accept_of(alloc, Kind::Write, 512),
        Entry::Fault {
            token: 2,
            command: Command::Put { block: 0, count: 1 },
            done: 0
        },
        Entry::Refuse {
            tag: 1,
            view: VIEW,
            asked: asked_of(Kind::Write, 9),
            media_id: 2,
            status: Status::MediaChanged
        },
        accept_of(alloc, Kind::Write, 7),
        Entry::Collect { tag: 1, token: 0 },
    ]?;
    Ok(entries)
}

const SUMMARY: &str =
    "entries 9\naccepted 4\nrefused 1\ncommands 3\nwritten 7\nread 1643\ncrc a738ea1c\n";

#[test]
fn sums_up_a_history(rt: HostRuntime) -> Result<(), Fail> {
    let alloc = rt.alloc();
    let mut history = History::make(alloc, 0)?;
    for entry in entries_of(alloc)? {
        history.reserve(1)?;
        history.push(entry);
    }
    let mut ends = Vec::new(alloc);
    for status in [
        Status::Success,
        Status::Success,
        Status::DeviceError,
        Status::Success,
    ] {
        ends.push(TokenLine {
            status,
            given: None,
        })?;
    }
    let text = summary_of(alloc, &history, &ends, 0xa738_ea1c)?;
    assert_eq!(rt; text.as_str(), SUMMARY);
    Ok(())
}
