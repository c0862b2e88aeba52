ghost use Rattle.std.specs.Prelude.{◌≡◌};
ghost use Rattle.script_text.specs.Limits.{most_script_bytes, most_request_bytes, most_requested_bytes, most_name_bytes, most_disks, most_media, most_clients, most_workers};

/// The most bytes of a script.
pub const SCRIPT_BYTES: u64 = 4 << 20;

/// The most bytes that one line asks for.
pub const REQUEST_BYTES: u64 = 16 << 20;

/// The most bytes that all lines ask for in sum.
pub const ALL_REQUEST_BYTES: u64 = 256 << 20;

/// The most bytes of an image's name.
pub const NAME_BYTES: u64 = 255;

/// The most disks of a script.
pub const DISKS: u64 = 16;

/// The most media of a disk.
pub const MEDIA: u64 = 16;

/// The most clients of a disk.
pub const CLIENTS: u64 = 64;

/// The most workers of a disk.
pub const WORKERS: u64 = 16;

/// The constants are the numbers of the definitions. It does nothing else than to carry this.
pub fn limits_are_defined()
    ensures script { SCRIPT_BYTES ≡ most_script_bytes }
    ensures request { REQUEST_BYTES ≡ most_request_bytes }
    ensures requests { ALL_REQUEST_BYTES ≡ most_requested_bytes }
    ensures name { NAME_BYTES ≡ most_name_bytes }
    ensures disks { DISKS ≡ most_disks }
    ensures media { MEDIA ≡ most_media }
    ensures clients { CLIENTS ≡ most_clients }
    ensures workers { WORKERS ≡ most_workers }
{}
