ghost use Rattle.std.specs.Prelude.{◌≡◌, ◌≢◌, ◌*◌, ◌^◌, ◌<◌, ℕ, true, false, IfSome, IfNone, slice_get};
ghost use Rattle.partition_tables.specs.declared.table.Child.{Child};
ghost use Rattle.partition_children.specs.Children.{FindsItsChild, IsFirstWith, format_of, child_node, origin_sign, child_view};

use device_path::{Format, HardDrive, Sign};
use history::View;
use partition_tables::{Child, Origin, Table};

/// The child's bytes as a view on the medium with this id, of blocks of `size` bytes; its index is the child's number. Its first
/// byte and its length are below 2^64.
pub fn view_of(child: &Child, media_id: u32, size: u32) -> View
    requires start { child.now.first * size < 2 ^ 64 }
    requires length { child.now.blocks * size < 2 ^ 64 }
    ensures { result ≡ child_view child.now media_id size }
{
    View {
        start: child.first * u64::from(size),
        length: child.blocks * u64::from(size),
        media_id,
        index: child.number,
    }
}

/// The child as a device path names it: by its number, its first block and its number of blocks, and by the signature of its
/// disk's master boot record or by its own GUID (UEFI 2.10, 10.3.5.1).
pub fn node_of(child: &Child) -> HardDrive
    ensures { result ≡ child_node child.now }
{
    HardDrive {
        number: child.number,
        start: child.first,
        size: child.blocks,
        format: format_of(child.origin),
        sign: sign_of(child.origin),
    }
}

// Which table names a child.
fn format_of(origin: Origin) -> Format
    ensures { result ≡ format_of origin }
{
    match origin {
        Origin::Mbr { .. } => Format::Mbr,
        Origin::Gpt { .. } => Format::Gpt,
    }
}

// The signature by which a child is known.
fn sign_of(origin: Origin) -> Sign
    ensures { result ≡ origin_sign origin }
{
    match origin {
        Origin::Mbr { signature, .. } => Sign::Mbr(signature),
        Origin::Gpt { unique, .. } => Sign::Guid(unique),
    }
}

/// The least place of a child whose node this is, from 0. None exactly where there is none. In a table of which no two children
/// have the same number, the node of each child finds that child.
pub fn find(table: &Table, node: &HardDrive) -> Option<usize>
    ensures some { IfSome result (λ place. IsFirstWith table.now.children node.now place) }
    ensures none { IfNone result ((i : ℕ) (child : Child) →
        slice_get table.now.children i ≡ Some child → child_node child ≢ node.now) }
    ensures own { FindsItsChild table.now.children node.now result }
{
    for (place, child) in table.children.as_slice().iter().enumerate() {
        if has_node(child, node) {
            return Some(place);
        }
    }
    None
}

// Whether the node is the child's.
fn has_node(child: &Child, node: &HardDrive) -> bool
    ensures yes { result ≡ true → child_node child.now ≡ node.now }
    ensures no { result ≡ false → child_node child.now ≢ node.now }
{
    node_of(child) == *node
}
