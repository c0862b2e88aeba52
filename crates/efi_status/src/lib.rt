//! The statuses of UEFI that this disk stack answers, with their codes and names.
#![tactic(auto)]

ghost use Rattle.std.specs.Prelude.{◌≡◌, ℕ, IfSome, IfNone};
ghost use Rattle.efi_status.specs.StatusTable.{code_of, name_of, IsNoCode};

/// What a disk call answers (UEFI 2.10, appendix D).
#[derive(Clone, Copy, Debug, PartialEq, Eq)]
pub enum Status {
    /// The call did what was asked.
    Success,
    /// The range lies outside the partition or the medium.
    InvalidParameter,
    /// The buffer is no whole number of blocks.
    BadBufferSize,
    /// The device failed a command.
    DeviceError,
    /// The medium may not be written.
    WriteProtected,
    /// Memory ran out. No accepted request ends with it.
    OutOfResources,
    /// No medium is in the device.
    NoMedia,
    /// The medium in the device is not the one that was named.
    MediaChanged,
    /// The caller ended the request.
    Aborted,
}

impl Status {
    /// The number of the status as UEFI passes it: bit 63 is set for each error (UEFI 2.10, appendix D).
    pub fn code(self) -> u64
        ensures { result ≡ code_of self }
    {
        match self {
            Status::Success => 0,
            Status::InvalidParameter => 0x8000_0000_0000_0002,
            Status::BadBufferSize => 0x8000_0000_0000_0004,
            Status::DeviceError => 0x8000_0000_0000_0007,
            Status::WriteProtected => 0x8000_0000_0000_0008,
            Status::OutOfResources => 0x8000_0000_0000_0009,
            Status::NoMedia => 0x8000_0000_0000_000C,
            Status::MediaChanged => 0x8000_0000_0000_000D,
            Status::Aborted => 0x8000_0000_0000_0015,
        }
    }

    /// The status with this code. None exactly where no status has it.
    pub fn from_code(code: u64) -> Option<Status>
        ensures coded { IfSome result (λ status. code_of status ≡ code) }
        ensures none { IfNone result (IsNoCode code) }
    {
        match code {
            0 => Some(Status::Success),
            0x8000_0000_0000_0002 => Some(Status::InvalidParameter),
            0x8000_0000_0000_0004 => Some(Status::BadBufferSize),
            0x8000_0000_0000_0007 => Some(Status::DeviceError),
            0x8000_0000_0000_0008 => Some(Status::WriteProtected),
            0x8000_0000_0000_0009 => Some(Status::OutOfResources),
            0x8000_0000_0000_000C => Some(Status::NoMedia),
            0x8000_0000_0000_000D => Some(Status::MediaChanged),
            0x8000_0000_0000_0015 => Some(Status::Aborted),
            _ => None,
        }
    }

    /// The name of the status (UEFI 2.10, appendix D).
    pub fn name(self) -> &'static str
        ensures { result.now ≡ name_of self }
    {
        match self {
            Status::Success => "EFI_SUCCESS",
            Status::InvalidParameter => "EFI_INVALID_PARAMETER",
            Status::BadBufferSize => "EFI_BAD_BUFFER_SIZE",
            Status::DeviceError => "EFI_DEVICE_ERROR",
            Status::WriteProtected => "EFI_WRITE_PROTECTED",
            Status::OutOfResources => "EFI_OUT_OF_RESOURCES",
            Status::NoMedia => "EFI_NO_MEDIA",
            Status::MediaChanged => "EFI_MEDIA_CHANGED",
            Status::Aborted => "EFI_ABORTED",
        }
    }
}

/// The code of a status leads back to it: no two statuses share a code.
pub fn status_of_code_of(status: Status) -> Option<Status>
    ensures { result ≡ Some status }
{
    Status::from_code(status.code())
}

#[cfg(test)]
mod tests {
    use super::Status;

    #[test]
    fn codes_of_the_table(rt: HostRuntime) {
        assert_eq!(rt; Status::DeviceError.code(), 0x8000_0000_0000_0007);
        assert_eq!(rt;
            Status::from_code(0x8000_0000_0000_0007),
            Some(Status::DeviceError)
        );
        assert_eq!(rt; Status::from_code(7), None);
        assert_eq!(rt; Status::Success.code(), 0);
        assert_eq!(rt; Status::Aborted.name(), "EFI_ABORTED");
    }
}
