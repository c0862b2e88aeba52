use crate::report::entries::entry_line;
use crate::report::parts::TokenLine;
use crate::report::tokens::{medium_line, token_line};
use crate::{KeptMedium, Name};
use byte_lists::Bytes;
use efi_status::Status;
use history::{Asked, Command, Entry, Kind, UnitKind, View};
use std::alloc::{AllocError, Global};
use std::test::Fail;

// A fault of a fetch or a store has the blocks of a group.
#[test]
fn faults_of_groups(rt: HostRuntime) -> Result<(), Fail> {
    let alloc = rt.alloc();
    let rows = [
        (Command::Fetch { block: 8 }, 0, "3 fault 2 fetch 8 8 0\n"),
        (Command::Store { block: 16 }, 1, "3 fault 2 store 16 8 1\n"),
    ];
    for (command, done, expected) in rows {
        let fault = Entry::Fault {
            token: 2,
            command,
            done,
        };
        let line = entry_line(alloc, 8, 3, &fault)?;
        assert_eq!(rt; line.as_str(), expected);
    }
    Ok(())
}

const LAST: View = View {
    start: u64::MAX,
    length: u64::MAX,
    media_id: u32::MAX,
    index: u32::MAX,
};

fn all_asked(kind: Kind, unit: UnitKind) -> Asked {
    Asked {
        kind,
        unit,
        at: u64::MAX,
        length: u64::MAX,
    }
}

fn calls_at_their_ends(alloc: Global) -> Result<Vec<Entry>, AllocError> {
    Ok(vec![in alloc;
        Entry::Accept {
            tag: u32::MAX,
            view: LAST,
            asked: all_asked(Kind::Read, UnitKind::Bytes),
            bytes: Bytes::from_vec(Vec::new(alloc))
        },
        Entry::Accept {
            tag: u32::MAX,
            view: LAST,
            asked: all_asked(Kind::Write, UnitKind::Blocks),
            bytes: Bytes::copy_of(alloc, &[0xFF])?
        },
        Entry::Accept {
            tag: u32::MAX,
            view: LAST,
            asked: all_asked(Kind::Erase, UnitKind::Blocks),
            bytes: Bytes::from_vec(Vec::new(alloc))
        },
        Entry::Refuse {
            tag: u32::MAX,
            view: LAST,
            asked: all_asked(Kind::Erase, UnitKind::Blocks),
            media_id: u32::MAX,
            status: Status::BadBufferSize
        },
        Entry::Collect {
            tag: u32::MAX,
            token: u64::MAX
        },
        Entry::Cancel {
            tag: u32::MAX,
            view: LAST
        },
        Entry::Reset { tag: u32::MAX },
        Entry::Eject { tag: u32::MAX },
        Entry::Insert {
            tag: u32::MAX,
            media_id: u32::MAX
        },
        Entry::Protect {
            tag: u32::MAX,
            on: false
        },
    ]?)
}

const CALLS_AT_THEIR_ENDS: [&str; 10] = [
    "accept 4294967295 18446744073709551615+18446744073709551615@4294967295/4294967295 read bytes 18446744073709551615 18446744073709551615",
    "accept 4294967295 18446744073709551615+18446744073709551615@4294967295/4294967295 write blocks 18446744073709551615 18446744073709551615 ff",
    "accept 4294967295 18446744073709551615+18446744073709551615@4294967295/4294967295 erase blocks 18446744073709551615 18446744073709551615",
    "refuse 4294967295 18446744073709551615+18446744073709551615@4294967295/4294967295 erase blocks 18446744073709551615 18446744073709551615 4294967295 EFI_BAD_BUFFER_SIZE",
    "collect 4294967295 18446744073709551615",
    "cancel 4294967295 18446744073709551615+18446744073709551615@4294967295/4294967295",
    "reset 4294967295",
    "eject 4294967295",
    "insert 4294967295 4294967295",
    "protect 4294967295 off",
];

const COMMANDS_AT_THEIR_ENDS: [(Command, &str, &str); 6] = [
    (
        Command::Fetch { block: u64::MAX },
        "fetch 18446744073709551615 18446744073709551615",
        "fault 18446744073709551615 fetch 18446744073709551615 8 4294967295",
    ),
    (
        Command::Store { block: u64::MAX },
        "store 18446744073709551615 18446744073709551615",
        "fault 18446744073709551615 store 18446744073709551615 8 4294967295",
    ),
    (
        Command::Put {
            block: u64::MAX,
            count: u32::MAX,
        },
        "put 18446744073709551615 18446744073709551615 4294967295",
        "fault 18446744073709551615 put 18446744073709551615 4294967295 4294967295",
    ),
    (
        Command::Get {
            block: u64::MAX,
            count: u32::MAX,
        },
        "get 18446744073709551615 18446744073709551615 4294967295",
        "fault 18446744073709551615 get 18446744073709551615 4294967295 4294967295",
    ),
    (
        Command::Wipe {
            block: u64::MAX,
            count: u32::MAX,
        },
        "wipe 18446744073709551615 18446744073709551615 4294967295",
        "fault 18446744073709551615 wipe 18446744073709551615 4294967295 4294967295",
    ),
    (
        Command::Sync,
        "sync 18446744073709551615",
        "fault 18446744073709551615 sync 0 0 4294967295",
    ),
];

fn is_line(alloc: Global, entry: &Entry, expected: &str) -> Result<bool, AllocError> {
    let line = entry_line(alloc, 8, u64::MAX, entry)?;
    let expected = format!(in alloc; "18446744073709551615 {expected}\n")?;
    Ok(line == expected)
}

#[test]
fn numbers_at_their_ends(rt: HostRuntime) -> Result<(), Fail> {
    let alloc = rt.alloc();
    let entries = calls_at_their_ends(alloc)?;
    for (entry, expected) in entries.iter().zip(CALLS_AT_THEIR_ENDS) {
        assert!(rt; is_line(alloc, entry, expected)?);
    }
    let token = u64::MAX;
    for (command, did, failed) in COMMANDS_AT_THEIR_ENDS {
        assert!(rt; is_line(alloc, &Entry::Done { token, command }, did)?);
        let done = u32::MAX;
        let fault = Entry::Fault {
            token,
            command,
            done,
        };
        assert!(rt; is_line(alloc, &fault, failed)?);
    }
    Ok(())
}

// Only a successful read whose tag is not 0 has its bytes as a further word.
#[test]
fn bytes_of_tokens(rt: HostRuntime) -> Result<(), Fail> {
    let alloc = rt.alloc();
    let rows = [
        (true, Status::Success, "token 7 EFI_SUCCESS 0aff\n"),
        (false, Status::Success, "token 7 EFI_SUCCESS\n"),
        (true, Status::Aborted, "token 7 EFI_ABORTED\n"),
    ];
    for (tagged, status, expected) in rows {
        let given = Some(Bytes::copy_of(alloc, &[0x0A, 0xFF])?);
        let line = token_line(alloc, 7, tagged, &TokenLine { status, given })?;
        assert_eq!(rt; line.as_str(), expected);
    }
    Ok(())
}

// Bytes that fill two pieces and begin a third.
#[test]
fn many_bytes(rt: HostRuntime) -> Result<(), Fail> {
    let alloc = rt.alloc();
    let given = Some(Bytes::from_vec(vec![in alloc; 0xC3; 8193]?));
    let status = Status::Success;
    let line = token_line(alloc, u64::MAX, true, &TokenLine { status, given })?;
    let mut expected = String::from_str(alloc, "token 18446744073709551615 EFI_SUCCESS ")?;
    for _ in 0..8193 {
        expected.push_str("c3")?;
    }
    expected.push_str("\n")?;
    assert_eq!(rt; line.as_str(), expected.as_str());
    Ok(())
}

#[test]
fn media_at_their_ends(rt: HostRuntime) -> Result<(), Fail> {
    let alloc = rt.alloc();
    let name = Name::copy_of(alloc, "a.img")?;
    let bytes = u64::MAX;
    let line = medium_line(alloc, u64::MAX, &KeptMedium { name, bytes })?;
    assert_eq!(rt;
        line.as_str(),
        "medium 18446744073709551615 a.img kept 18446744073709551615\n"
    );
    Ok(())
}
