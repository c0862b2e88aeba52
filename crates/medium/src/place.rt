/// A place for a block.
#[derive(Drop)]
pub struct Place {
    /// Whether the block is held here.
    pub filled: bool,
    pub bytes: Vec<u8>,
}
