ghost use Rattle.gpt_headers.specs.Entry.{SharesSomeBlock};

/// Two entries share a block exactly where some block is one of both (UEFI 2.10, 5.3.3: the last block is the entry's own). It does
/// nothing else than to carry this law.
pub fn shared_blocks_tell()
    ensures { SharesSomeBlock }
{}
