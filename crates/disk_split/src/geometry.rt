/// How a disk's bytes are cut into blocks, and its blocks into groups: a group is a physical block (UEFI 2.10, 13.9.1; own profile).
#[derive(Clone, Copy, Debug, PartialEq, Eq)]
pub struct Geometry {
    /// The bytes of a block.
    pub size: u32,
    /// The blocks of a group.
    pub per: u32,
}
