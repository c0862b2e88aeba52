/// A unit of a request: a part of one block, or a run of whole blocks (UEFI 2.10, 13.7; runs: own profile).
#[derive(Clone, Copy, Debug, PartialEq, Eq)]
pub struct Span {
    /// Whether it is a run of whole blocks.
    pub whole: bool,
    /// The first block, an LBA.
    pub block: u64,
    /// How many blocks: 1 for a part, 1 to 64 for a run.
    pub count: u32,
    /// The first byte of the range in these blocks.
    pub low: u64,
    /// The byte behind the last byte of the range in these blocks.
    pub high: u64,
}
