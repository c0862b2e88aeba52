ghost use Rattle.std.specs.Prelude.{◌≡◌, length};
ghost use Rattle.uuid.specs.Parts.{swap_fields};

use uuid::Uuid;

/// The GUID in these 16 bytes. Its first three fields are stored little-endian (UEFI 2.10, appendix A).
pub(crate) fn read_guid(bytes: &[u8]) -> Uuid
    requires { length bytes.now ≡ 16 }
    ensures { result ≡ swap_fields bytes.now }
{
    Uuid::from_slice_le(bytes).unwrap()
}
