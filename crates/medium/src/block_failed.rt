/// A command of a block device failed (UEFI 2.10, 13.9; how far it came: own profile).
#[derive(Clone, Copy, Debug, PartialEq, Eq)]
pub struct BlockFailed {
    /// How many of its blocks were done, counted from its first.
    pub done: u32,
}
