//! Lists of bytes: patching, copying a part, and the first place where two differ.
#![tactic(auto)]

mod bytes;
mod patching;

pub use bytes::Bytes;
pub use patching::{copy_part, first_difference, patch_into};

#[cfg(test)]
mod tests {
    use super::{Bytes, copy_part, first_difference, patch_into};
    use std::test::Fail;

    #[test]
    fn each_call_once(rt: HostRuntime) -> Result<(), Fail> {
        let mut block = [1, 2, 3, 4, 5];
        patch_into(&mut block, 1, &[9, 8]);
        assert_eq!(rt; block, [1, 9, 8, 4, 5]);
        let mut part = [0, 0];
        copy_part(&block, 2, &mut part);
        assert_eq!(rt; part, [8, 4]);
        assert_eq!(rt; first_difference(&[1, 2, 3], &[1, 5, 4]), Some(1));
        assert_eq!(rt; first_difference(&[1, 2], &[1, 2]), None);
        let kept = Bytes::copy_of(rt.alloc(), &block)?;
        assert_eq!(rt; kept.as_slice(), [1, 9, 8, 4, 5].as_slice());
        Ok(())
    }
}
