ghost use Rattle.std.specs.Prelude.{◌≡◌, ℕ, ◌+◌, ◌<◌, ◌≤◌, ◌^◌, length};

use crate::{Mark, NotThere, Request, Tokens};
use byte_lists::Bytes;
use efi_status::Status;
use event_cell::{Event, make_event};
use history::{Asked, Kind, UnitKind, View};
use std::alloc::{AllocError, Global};
use std::test::Fail;

/// A read of so many bytes at the beginning of a medium of 2,048 bytes.
fn read(alloc: Global, tag: u32, length: u64) -> Result<Request, AllocError> {
    Ok(Request {
        tag,
        view: View {
            start: 0,
            length: 2048,
            media_id: 1,
            index: 0,
        },
        asked: Asked {
            kind: Kind::Read,
            unit: UnitKind::Bytes,
            at: 0,
            length,
        },
        at: 0,
        buffer: Bytes::copy_of(alloc, &[0; 4])?,
        left: length,
    })
}

/// Adds a read of four bytes, and answers its number and its event.
fn add_read(tokens: &mut Tokens, alloc: Global, tag: u32) -> Result<(u64, Event), AllocError>
    requires { length tokens.old < 9 }
    ensures { length tokens.new ≤ length tokens.old + 1 }
{
    let request = read(alloc, tag, 4)?;
    let (signaller, event) = make_event(alloc)?;
    match tokens.add(request, signaller) {
        Ok(number) => Ok((number, event)),
        Err(_) => Err(AllocError),
    }
}

/// Lowers what is left of an outstanding request that has as much left.
fn lower(tokens: &mut Tokens, number: u64, by: u64) {
    let Mark::Outstanding = tokens.mark(number) else {
        return;
    };
    let Some(request) = tokens.find(number) else {
        return;
    };
    if by <= request.left {
        tokens.lower(number, by);
    }
}

/// Fills the buffer of an outstanding request from its beginning on.
fn fill(tokens: &mut Tokens, number: u64, bytes: &[u8]) {
    let Mark::Outstanding = tokens.mark(number) else {
        return;
    };
    for (to, from) in tokens.buffer_mut(number).iter_mut().zip(bytes) {
        *to = *from;
    }
}

/// Ends an outstanding request.
fn end(tokens: &mut Tokens, number: u64, status: Status) {
    let Mark::Outstanding = tokens.mark(number) else {
        return;
    };
    tokens.end(number, status);
}

/// What is left of a request.
fn left_of(tokens: &Tokens, number: u64) -> Option<u64> {
    Some(tokens.find(number)?.left)
}

/// Why a request is not handed out; it is a mistake if it is.
fn refusal(tokens: &mut Tokens, number: u64) -> Option<NotThere> {
    tokens.take(number).err()
}

/// Two requests: the second is filled, lowered, ended and taken while the first is outstanding.
#[test]
fn hands_each_request_out_once(rt: HostRuntime) -> Result<(), Fail> {
    let mut tokens = Tokens::make(rt.alloc());
    let (first, mut first_event) = add_read(&mut tokens, rt.alloc(), 7)?;
    let (second, mut second_event) = add_read(&mut tokens, rt.alloc(), 8)?;
    assert_eq!(rt; (first, second), (0, 1));
    lower(&mut tokens, 1, 3);
    assert_eq!(rt;
        (left_of(&tokens, 0), left_of(&tokens, 1)),
        (Some(4), Some(1))
    );
    fill(&mut tokens, 1, &[5, 6, 7, 8]);
    assert_eq!(rt; refusal(&mut tokens, 1), Some(NotThere::Outstanding));
    end(&mut tokens, 1, Status::DeviceError);
    assert_eq!(rt;
        (tokens.mark(0), tokens.mark(1)),
        (Mark::Outstanding, Mark::Ended(Status::DeviceError))
    );
    assert_eq!(rt;
        (first_event.check(), second_event.check()),
        (None, Some(Status::DeviceError))
    );
    match tokens.take(1) {
        Ok(done) => assert_eq!(rt;
            (done.status, done.buffer.as_slice()),
            (Status::DeviceError, [5, 6, 7, 8].as_slice())
        ),
        Err(_) => panic!(rt; "the second request was not handed out"),
    }
    assert_eq!(rt; refusal(&mut tokens, 1), Some(NotThere::Unknown));
    assert_eq!(rt; refusal(&mut tokens, 9), Some(NotThere::Unknown));
    assert_eq!(rt;
        (tokens.mark(1), left_of(&tokens, 1)),
        (Mark::Unknown, None)
    );
    assert_eq!(rt; refusal(&mut tokens, 0), Some(NotThere::Outstanding));
    Ok(())
}
