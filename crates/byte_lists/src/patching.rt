ghost use Rattle.std.specs.Prelude.{◌≡◌, ◌≢◌, ℕ, ◌+◌, ◌<◌, ◌≤◌, ◌↔◌, length, take, drop, slice_index, IfSome, IfNone};
ghost use Rattle.byte_lists.specs.Patching.{patch};

/// Replaces the bytes of `bytes` from `at` on by `piece`. The piece fits.
pub fn patch_into(bytes: &mut [u8], at: usize, piece: &[u8])
    requires { at + length piece.now ≤ length bytes.old }
    ensures { bytes.new ≡ patch bytes.old at piece.now }
{
    bytes[at..at + piece.len()].copy_from_slice(piece);
}

/// Fills `out` with the bytes from `at` on. The part lies inside.
pub fn copy_part(bytes: &[u8], at: usize, out: &mut [u8])
    requires { at + length out.old ≤ length bytes.now }
    ensures { out.new ≡ take (length out.old) (drop at bytes.now) }
{
    let count = out.len();
    out.copy_from_slice(&bytes[at..at + count]);
}

/// The least place where two lists of one length differ. None exactly where they are equal.
pub fn first_difference(left: &[u8], right: &[u8]) -> Option<usize>
    requires { length left.now ≡ length right.now }
    ensures none { IfNone result (left.now ≡ right.now) }
    ensures within { IfSome result (λ place. place < length left.now) }
    ensures differs { IfSome result (λ place. slice_index left.now place ≢ slice_index right.now place) }
    ensures least { IfSome result (λ place. take place left.now ≡ take place right.now) }
{
    for (place, byte) in left.iter().enumerate() {
        if *byte != right[place] {
            return Some(place);
        }
    }
    None
}
