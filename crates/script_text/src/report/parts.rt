use crate::Name;
use byte_lists::Bytes;
use efi_status::Status;

/// How a token ended, and what it gave back (own profile).
#[derive(Drop)]
pub struct TokenLine {
    /// The status with which the token ended.
    pub status: Status,
    /// The bytes of a successful read whose tag is not 0, and nothing for another token.
    pub given: Option<Bytes>,
}

/// A medium of a disk as it was kept (own profile).
#[derive(Drop)]
pub struct KeptMedium {
    /// The image that holds it.
    pub name: Name,
    /// Its length in bytes, in whole blocks.
    pub bytes: u64,
}

/// Why a report could not be written (own profile).
#[derive(Clone, Copy, Debug, PartialEq, Eq)]
pub enum ReportFault {
    /// The sink failed.
    Failed,
    /// Memory ran out.
    Memory,
}
