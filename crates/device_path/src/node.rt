ghost use Rattle.std.specs.Prelude.{◌≡◌, ◌+◌, ◌≤◌, ◌==◌, ℕ, if◌then◌else◌, IsTrue, IfOk, IfNone, Ok, length, slice_index, slice_range};
ghost use Rattle.std.specs.Int.{w16, w32, w64, from_le_bytes};
ghost use Rattle.std.specs.Result.{result_err};
ghost use Rattle.uuid.specs.Parts.{swap_fields};
ghost use Rattle.device_path.specs.declared.hard_drive.HardDrive.{HardDrive};
ghost use Rattle.device_path.specs.Node.{IsHardDrive, IsNodeOf, PassesAll, node_fault, drive_fields, first_unused, format_code, has_format, has_kind, has_length, has_sign_type, has_signature, sign_bytes, sign_code, node_sign};

use crate::hard_drive::{Format, HardDrive, Sign};
use byte_lists::{copy_part, patch_into};
use uuid::Uuid;

/// Why bytes are no hard drive node: the first test that fails, in this order (UEFI 2.10, 10.3.5.1; the order is own profile).
#[derive(Clone, Copy, Debug, PartialEq, Eq)]
pub enum NodeFault {
    /// They are not 42, or bytes 2 and 3 are not that number.
    Length,
    /// The type is not 4, or the subtype not 1.
    Kind,
    /// The format is neither 1 nor 2.
    Format,
    /// The signature type is above 2.
    SignType,
    /// A byte of the signature that must be zero is not.
    Signature,
}

/// The node of a hard drive (UEFI 2.10, 10.3.5.1).
pub fn write_node(node: &HardDrive) -> [u8; 42]
    ensures { IsNodeOf node.now result }
{
    let mut bytes = [0; 42];
    patch_into(&mut bytes, 0, &[4, 1, 42, 0]);
    patch_into(&mut bytes, 4, &node.number.to_le_bytes());
    patch_into(&mut bytes, 8, &node.start.to_le_bytes());
    patch_into(&mut bytes, 16, &node.size.to_le_bytes());
    patch_into(&mut bytes, 24, &sign_bytes(node.sign));
    patch_into(
        &mut bytes,
        40,
        &[format_code(node.format), sign_code(node.sign)],
    );
    bytes
}

/// The byte of a format.
fn format_code(format: Format) -> u8
    ensures { result ≡ format_code format }
{
    match format {
        Format::Mbr => 1,
        Format::Gpt => 2,
    }
}

/// The byte of a signature type.
fn sign_code(sign: Sign) -> u8
    ensures { result ≡ sign_code sign }
{
    match sign {
        Sign::None => 0,
        Sign::Mbr(_) => 1,
        Sign::Guid(_) => 2,
    }
}

/// The 16 bytes of a signature.
fn sign_bytes(sign: Sign) -> [u8; 16]
    ensures { result ≡ sign_bytes sign }
{
    match sign {
        Sign::None => [0; 16],
        Sign::Mbr(signature) => mbr_bytes(signature),
        Sign::Guid(guid) => guid.to_bytes_le(),
    }
}

/// The 16 bytes of a disk signature.
fn mbr_bytes(signature: u32) -> [u8; 16]
    ensures { result ≡ sign_bytes (Sign.Mbr signature) }
{
    let mut bytes = [0; 16];
    patch_into(&mut bytes, 0, &signature.to_le_bytes());
    bytes
}

/// The hard drive of which these bytes are the node. The error is the fault of the first test that fails (UEFI 2.10, 10.3.5.1; the
/// order of the tests is own profile).
pub fn read_node(b: &[u8]) -> Result<HardDrive, NodeFault>
    ensures node { IfOk result (λ node. IsNodeOf node b.now) }
    ensures each { (node : HardDrive) → IsHardDrive node → IsNodeOf node b.now → result ≡ Ok node }
    ensures fault { result_err result ≡ node_fault b.now }
{
    match first_fault(b) {
        Some(fault) => Err(fault),
        None => Ok(fields(b)),
    }
}

/// The fault of the first test that fails.
#[tactic(auto, unfolding(crate::specs::Node::node_fault))]
fn first_fault(b: &[u8]) -> Option<NodeFault>
    ensures exact { result ≡ node_fault b.now }
    ensures length { IfNone result (length b.now ≡ 42) }
    ensures passes { IfNone result (PassesAll b.now) }
{
    if !has_length(b) {
        Some(NodeFault::Length)
    } else if !has_kind(b) {
        Some(NodeFault::Kind)
    } else if !has_format(b) {
        Some(NodeFault::Format)
    } else if !has_sign_type(b) {
        Some(NodeFault::SignType)
    } else if !has_signature(b) {
        Some(NodeFault::Signature)
    } else {
        None
    }
}

/// Whether there are 42 bytes, and they say so.
#[tactic(auto, unfolding(crate::specs::Node::has_length))]
fn has_length(b: &[u8]) -> bool
    ensures exact { result ≡ has_length b.now }
    ensures length { IsTrue result → length b.now ≡ 42 }
{
    b.len() == 42 && u16::from_le_bytes([b[2], b[3]]) == 42
}

/// Whether type and subtype are those of a hard drive.
#[tactic(auto, unfolding(crate::specs::Node::has_kind))]
fn has_kind(b: &[u8]) -> bool
    requires { length b.now ≡ 42 }
    ensures { result ≡ has_kind b.now }
{
    b[0] == 4 && b[1] == 1
}

/// Whether the format is known.
#[tactic(auto, unfolding(crate::specs::Node::has_format))]
fn has_format(b: &[u8]) -> bool
    requires { length b.now ≡ 42 }
    ensures { result ≡ has_format b.now }
{
    b[40] == 1 || b[40] == 2
}

/// Whether the signature type is known.
#[tactic(auto, unfolding(crate::specs::Node::has_sign_type))]
fn has_sign_type(b: &[u8]) -> bool
    requires { length b.now ≡ 42 }
    ensures { result ≡ has_sign_type b.now }
{
    b[41] <= 2
}

/// The first byte that the signature type leaves unused.
fn first_unused(b: &[u8]) -> usize
    requires { length b.now ≡ 42 }
    ensures exact { result ≡ first_unused b.now }
    ensures inside { result ≤ 40 }
{
    match b[41] {
        0 => 24,
        1 => 28,
        _ => 40,
    }
}

/// Whether the bytes that the signature type leaves unused are zero.
#[tactic(auto, unfolding(crate::specs::Node::has_signature))]
fn has_signature(b: &[u8]) -> bool
    requires { length b.now ≡ 42 }
    ensures { result ≡ has_signature b.now }
{
    b[first_unused(b)..40].iter().all(|byte| *byte == 0)
}

/// The hard drive that the fields tell.
#[tactic(auto, unfolding(crate::specs::Node::drive_fields))]
fn fields(b: &[u8]) -> HardDrive
    requires { length b.now ≡ 42 }
    ensures { result ≡ drive_fields b.now }
{
    HardDrive {
        number: word_at(b, 4),
        start: long_at(b, 8),
        size: long_at(b, 16),
        format: format_of(b[40]),
        sign: sign_of(b),
    }
}

/// The format of a known byte.
fn format_of(code: u8) -> Format
    ensures { result ≡ (if code == 1 then Format.Mbr else Format.Gpt) }
{
    if code == 1 { Format::Mbr } else { Format::Gpt }
}

/// The signature that the fields tell.
fn sign_of(b: &[u8]) -> Sign
    requires { length b.now ≡ 42 }
    ensures { result ≡ node_sign b.now }
{
    match b[41] {
        0 => Sign::None,
        1 => Sign::Mbr(word_at(b, 24)),
        _ => Sign::Guid(guid_at(b, 24)),
    }
}

/// The number in the four bytes from this place on, little-endian.
fn word_at(b: &[u8], at: usize) -> u32
    requires { at + 4 ≤ length b.now }
    ensures { result ≡ from_le_bytes w32 (slice_range b.now at (at + 4)) }
{
    let mut bytes = [0; 4];
    copy_part(b, at, &mut bytes);
    u32::from_le_bytes(bytes)
}

/// The number in the eight bytes from this place on, little-endian.
fn long_at(b: &[u8], at: usize) -> u64
    requires { at + 8 ≤ length b.now }
    ensures { result ≡ from_le_bytes w64 (slice_range b.now at (at + 8)) }
{
    let mut bytes = [0; 8];
    copy_part(b, at, &mut bytes);
    u64::from_le_bytes(bytes)
}

/// The GUID in the 16 bytes from this place on.
fn guid_at(b: &[u8], at: usize) -> Uuid
    requires { at + 16 ≤ length b.now }
    ensures { result ≡ swap_fields (slice_range b.now at (at + 16)) }
{
    let mut bytes = [0; 16];
    copy_part(b, at, &mut bytes);
    Uuid::from_bytes_le(bytes)
}
