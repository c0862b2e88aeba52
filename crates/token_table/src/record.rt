ghost use Rattle.std.specs.Prelude.{◌≡◌};

use byte_lists::Bytes;
use efi_status::Status;
use event_cell::Signaller;
use history::{Asked, View};

/// An accepted request (UEFI 2.10, 13.8 and 13.10).
#[derive(Drop)]
pub struct Request {
    /// The caller's tag.
    pub tag: u32,
    /// The part of the medium that it is for.
    pub view: View,
    /// What it asks for.
    pub asked: Asked,
    /// The first byte of its range on the medium.
    pub at: u64,
    /// The bytes that a write brought, or those that a read has brought so far.
    pub buffer: Bytes,
    /// The bytes that are not done yet, and 1 for a flush that is not done.
    pub left: u64,
}

/// A request that ended: its status, and its buffer.
#[derive(Drop)]
pub struct Done {
    pub status: Status,
    pub buffer: Bytes,
}

/// Why no request is handed out.
#[derive(Clone, Copy, Debug, PartialEq, Eq)]
pub enum NotThere {
    /// It has not ended.
    Outstanding,
    /// Its number was never given, or it was handed out.
    Unknown,
}

/// How a request stands.
#[derive(Clone, Copy, Debug, PartialEq, Eq)]
pub enum Mark {
    /// It has not ended.
    Outstanding,
    /// It ended with this status.
    Ended(Status),
    /// Its number was never given, or it was handed out.
    Unknown,
}

/// A request that was not added for want of memory, with its signaller.
#[derive(Drop)]
pub struct NotAdded {
    pub request: Request,
    pub signaller: Signaller,
}

/// What is kept of a request.
#[derive(Drop)]
pub struct Record {
    pub request: Request,
    /// The status with which it ended.
    pub ended: Option<Status>,
    /// The end that signals its event.
    pub signaller: Signaller,
}

impl Record {
    /// The request and its signaller, which were not added.
    pub fn not_added(self) -> NotAdded
        ensures request { result.request ≡ self.request }
        ensures signaller { result.signaller ≡ self.signaller }
    {
        let Record {
            request,
            signaller,
            ..
        } = self;
        NotAdded { request, signaller }
    }
}
