ghost use Rattle.std.specs.Prelude.{◌≡◌, false, [], reverse, IfOk};
ghost use Rattle.script_text.specs.Report.{AreEnds};

use super::NAME_OF_255;
use crate::language::names::{Items, Name};
use crate::language::plans::DiskPlan;
use crate::report::entries::entry_line;
use crate::report::parts::{KeptMedium, ReportFault, TokenLine};
use crate::report::pieces;
use crate::report::writer::add_entries;
use crate::{lines_tell_entries, report_body, report_head};
use byte_lists::Bytes;
use efi_status::Status;
use history::{Asked, Command, Entry, History, Kind, UnitKind, View};
use image_store::MemSink;
use std::alloc::{AllocError, Global};
use std::test::Fail;

const WHOLE: View = View {
    start: 0,
    length: 1024,
    media_id: 1,
    index: 0,
};

const PART: View = View {
    start: 512,
    length: 256,
    media_id: 3,
    index: 2,
};

const WRITTEN: Asked = Asked {
    kind: Kind::Write,
    unit: UnitKind::Bytes,
    at: 510,
    length: 4,
};

const NOTHING_WRITTEN: Asked = Asked {
    kind: Kind::Write,
    unit: UnitKind::Blocks,
    at: 1,
    length: 0,
};

const READ: Asked = Asked {
    kind: Kind::Read,
    unit: UnitKind::Bytes,
    at: 508,
    length: 8,
};

const NOTHING_READ: Asked = Asked {
    kind: Kind::Read,
    unit: UnitKind::Bytes,
    at: 3,
    length: 0,
};

const CANCELLED: Asked = Asked {
    kind: Kind::Read,
    unit: UnitKind::Blocks,
    at: 0,
    length: 256,
};

const FLUSH: Asked = Asked {
    kind: Kind::Flush,
    unit: UnitKind::Bytes,
    at: 0,
    length: 0,
};

const ERASED: Asked = Asked {
    kind: Kind::Erase,
    unit: UnitKind::Blocks,
    at: 1,
    length: 512,
};

const FAILED: Asked = Asked {
    kind: Kind::Write,
    unit: UnitKind::Bytes,
    at: 7,
    length: 1,
};

fn history_of(alloc: Global, entries: Vec<Entry>) -> Result<History, AllocError>
    ensures { IfOk result (λ history. history.entries ≡ reverse entries.items) }
{
    let mut history = History::make(alloc, 0)?;
    for entry in entries {
        history.reserve(1)?;
        history.push(entry);
    }
    Ok(history)
}

// What happened, and how its tokens ended.
#[derive(Drop)]
struct Sample {
    history: History,
    ends: Vec<TokenLine>,
}

// Entries and tokens of every kind.
fn make_sample(alloc: Global) -> Result<Sample, AllocError>
    ensures { IfOk result (λ sample. AreEnds (record {
      geometry = record { size = 512; per = 1 };
      cached = false;
      protected = false;
      media = [];
    }) sample.history.entries sample.ends.items) }
{
    let written = Bytes::copy_of(alloc, &[0xAA, 0xBB, 0x0C, 0xDD])?;
    let failed = Bytes::copy_of(alloc, &[0x5E])?;
    let entries = vec![in alloc;
        Entry::Accept {
            tag: 1,
            view: WHOLE,
            asked: WRITTEN,
            bytes: written
        },
        Entry::Done {
            token: 0,
            command: Command::Fetch { block: 0 }
        },
        Entry::Done {
            token: 0,
            command: Command::Store { block: 0 }
        },
        Entry::Done {
            token: 0,
            command: Command::Fetch { block: 1 }
        },
        Entry::Done {
            token: 0,
            command: Command::Store { block: 1 }
        },
        Entry::Collect { tag: 1, token: 0 },
        Entry::Accept {
            tag: 1,
            view: WHOLE,
            asked: NOTHING_WRITTEN,
            bytes: Bytes::from_vec(Vec::new(alloc))
        },
        Entry::Accept {
            tag: 2,
            view: WHOLE,
            asked: READ,
            bytes: Bytes::from_vec(Vec::new(alloc))
        },
        Entry::Done {
            token: 2,
            command: Command::Get { block: 0, count: 2 }
        },
        Entry::Accept {
            tag: 2,
            view: WHOLE,
            asked: NOTHING_READ,
            bytes: Bytes::from_vec(Vec::new(alloc))
        },
        Entry::Accept {
            tag: 3,
            view: PART,
            asked: CANCELLED,
            bytes: Bytes::from_vec(Vec::new(alloc))
        },
        Entry::Cancel { tag: 6, view: PART },
        Entry::Accept {
            tag: 0,
            view: WHOLE,
            asked: FLUSH,
            bytes: Bytes::from_vec(Vec::new(alloc))
        },
        Entry::Done {
            token: 5,
            command: Command::Sync
        },
        Entry::Accept {
            tag: 4,
            view: WHOLE,
            asked: FAILED,
            bytes: failed
        },
        Entry::Done {
            token: 6,
            command: Command::Put {
                block: 7,
                count: 64
            }
        },
        Entry::Fault {
            token: 6,
            command: Command::Fetch { block: 7 },
            done: 0
        },
        Entry::Fault {
            token: 6,
            command: Command::Store { block: 7 },
            done: 0
        },
        Entry::Fault {
            token: 6,
            command: Command::Put {
                block: 7,
                count: 64
            },
            done: 3
        },
        Entry::Fault {
            token: 6,
            command: Command::Get { block: 7, count: 2 },
            done: 0
        },
        Entry::Fault {
            token: 6,
            command: Command::Sync,
            done: 0
        },
        Entry::Refuse {
            tag: 9,
            view: PART,
            asked: FLUSH,
            media_id: 4,
            status: Status::MediaChanged
        },
        Entry::Reset { tag: 7 },
        Entry::Eject { tag: 8 },
        Entry::Insert {
            tag: 9,
            media_id: 2
        },
        Entry::Protect { tag: 10, on: true },
        Entry::Protect { tag: 11, on: false },
        Entry::Accept {
            tag: 5,
            view: WHOLE,
            asked: ERASED,
            bytes: Bytes::from_vec(Vec::new(alloc))
        },
        Entry::Done {
            token: 7,
            command: Command::Wipe { block: 1, count: 1 }
        },
        Entry::Fault {
            token: 6,
            command: Command::Wipe { block: 1, count: 4 },
            done: 2
        },
        Entry::Refuse {
            tag: 5,
            view: WHOLE,
            asked: ERASED,
            media_id: 3,
            status: Status::WriteProtected
        },
        Entry::Accept {
            tag: 0,
            view: WHOLE,
            asked: NOTHING_READ,
            bytes: Bytes::from_vec(Vec::new(alloc))
        },
    ]?;
    let given = Bytes::copy_of(alloc, &[0, 0, 0xAA, 0xBB, 0x0C, 0xDD, 0, 0])?;
    let ends = vec![in alloc;
        TokenLine {
            status: Status::Success,
            given: None
        },
        TokenLine {
            status: Status::Success,
            given: None
        },
        TokenLine {
            status: Status::Success,
            given: Some(given)
        },
        TokenLine {
            status: Status::Success,
            given: Some(Bytes::from_vec(Vec::new(alloc)))
        },
        TokenLine {
            status: Status::Aborted,
            given: None
        },
        TokenLine {
            status: Status::Success,
            given: None
        },
        TokenLine {
            status: Status::DeviceError,
            given: None
        },
        TokenLine {
            status: Status::Success,
            given: None
        },
        TokenLine {
            status: Status::Success,
            given: Some(Bytes::from_vec(Vec::new(alloc)))
        },
    ]?;
    let history = history_of(alloc, entries)?;
    Ok(Sample { history, ends })
}

const LINES: &str = "0 accept 1 0+1024@1/0 write bytes 510 4 aabb0cdd
1 fetch 0 0
2 store 0 0
3 fetch 0 1
4 store 0 1
5 collect 1 0
6 accept 1 0+1024@1/0 write blocks 1 0 -
7 accept 2 0+1024@1/0 read bytes 508 8
8 get 2 0 2
9 accept 2 0+1024@1/0 read bytes 3 0
10 accept 3 512+256@3/2 read blocks 0 256
11 cancel 6 512+256@3/2
12 accept 0 0+1024@1/0 flush
13 sync 5
14 accept 4 0+1024@1/0 write bytes 7 1 5e
15 put 6 7 64
16 fault 6 fetch 7 1 0
17 fault 6 store 7 1 0
18 fault 6 put 7 64 3
19 fault 6 get 7 2 0
20 fault 6 sync 0 0 0
21 refuse 9 512+256@3/2 flush bytes 0 0 4 EFI_MEDIA_CHANGED
22 reset 7
23 eject 8
24 insert 9 2
25 protect 10 on
26 protect 11 off
27 accept 5 0+1024@1/0 erase blocks 1 512
28 wipe 7 1 1
29 fault 6 wipe 1 4 2
30 refuse 5 0+1024@1/0 erase blocks 1 512 3 EFI_WRITE_PROTECTED
31 accept 0 0+1024@1/0 read bytes 3 0
token 0 EFI_SUCCESS
token 1 EFI_SUCCESS
token 2 EFI_SUCCESS 0000aabb0cdd0000
token 3 EFI_SUCCESS -
token 4 EFI_ABORTED
token 5 EFI_SUCCESS
token 6 EFI_DEVICE_ERROR
token 7 EFI_SUCCESS
token 8 EFI_SUCCESS
";

#[test]
fn whole_report(rt: HostRuntime) -> Result<(), Fail> {
    let alloc = rt.alloc();
    lines_tell_entries();
    let plan = DiskPlan {
        image: Name::copy_of(alloc, NAME_OF_255)?,
        size: 512,
        workers: 1,
        cached: false,
        protected: false,
        physical: 8,
        spares: Items::from_vec(Vec::new(alloc)),
        clients: Items::from_vec(Items::from_vec(Vec::new(alloc)).into_vec()),
    };
    let media = [
        KeptMedium {
            name: Name::from_string(String::from_str(alloc, NAME_OF_255)?),
            bytes: 1024,
        },
        KeptMedium {
            name: Name::copy_of(alloc, "b.img")?,
            bytes: 512,
        },
    ];
    let Sample { history, ends } = make_sample(alloc)?;
    let mut out = MemSink::make(alloc, Vec::new(alloc));
    assert_eq!(rt; report_head(alloc, 3, &plan, 2, &mut out), Ok(()));
    assert_eq!(rt;
        report_body(alloc, 1, &history, &ends, &media, &mut out),
        Ok(())
    );
    let expected = format!(in alloc;
        "disk 3 {NAME_OF_255} size 512 blocks 2 physical 8\n{LINES}medium 1 {NAME_OF_255} kept 1024\nmedium 2 b.img kept 512\n"
    )?;
    assert_eq!(rt; out.bytes(), expected.as_bytes());
    Ok(())
}

#[test]
fn sink_that_fails(rt: HostRuntime) -> Result<(), Fail> {
    let alloc = rt.alloc();
    let mut entries = Vec::new(alloc);
    for tag in 0..10000 {
        entries.push(Entry::Reset { tag })?;
    }
    for failing in 0..4 {
        let mut held = String::new(alloc);
        let mut out = MemSink::make(alloc, vec![in alloc; failing]?);
        let added = add_entries(alloc, 1, &entries, &mut held, &mut out);
        let put = match added {
            Ok(()) => pieces::put(&mut out, held.as_str()),
            Err(fault) => Err(fault),
        };
        assert_eq!(rt;
            put,
            if failing < 3 {
                Err(ReportFault::Failed)
            } else {
                Ok(())
            }
        );
        let first = entry_line(alloc, 1, 0, &Entry::Reset { tag: 0 })?;
        assert_eq!(rt; out.bytes().starts_with(first.as_bytes()), failing > 0);
    }
    Ok(())
}
