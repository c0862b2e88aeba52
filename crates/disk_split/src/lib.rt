//! The parts and runs of a request: how a range of bytes is cut at block borders.
#![tactic(auto)]

mod cut;
mod geometry;
mod parts;
mod span;

pub use cut::spans;
pub use geometry::Geometry;
pub use parts::{Part, Parts, run, runs, split};
pub use span::Span;

#[cfg(test)]
mod tests {
    use super::{Geometry, Part, Parts, Span, run, runs, spans, split};
    use std::test::Fail;

    fn part(at: u64, len: u32) -> Option<Part> {
        Some(Part { at, len })
    }

    fn cut(under: Option<Part>, first_whole: u64, whole: u64, over: Option<Part>) -> Parts {
        Parts {
            under,
            first_whole,
            whole,
            over,
        }
    }

    #[test]
    fn each_call_once(rt: HostRuntime) -> Result<(), Fail> {
        let rows = [
            (510, 4, 512, cut(part(510, 2), 1, 0, part(512, 2))),
            (4, 4, 512, cut(part(4, 4), 1, 0, None)),
            (
                100,
                33000,
                512,
                cut(part(100, 412), 1, 63, part(32768, 332)),
            ),
            (0, 0, 512, cut(None, 0, 0, None)),
            (1024, 0, 512, cut(None, 2, 0, None)),
            (1025, 0, 512, cut(None, 3, 0, None)),
            (0, 66560, 512, cut(None, 0, 130, None)),
            (u64::MAX, 0, 512, cut(None, 1 << 55, 0, None)),
            (
                u64::MAX - 1,
                1,
                32768,
                cut(part(u64::MAX - 1, 1), 1 << 49, 0, None),
            ),
        ];
        for (at, len, size, parts) in rows {
            assert_eq!(rt; split(at, len, size), parts);
        }
        assert_eq!(rt; runs(130), 3);
        assert_eq!(rt; runs(u64::MAX), 1 << 58);
        assert_eq!(rt; run(0, 130, 2), (128, 2));
        let units = spans(rt.alloc(), 510, 1028, Geometry { size: 512, per: 1 })?;
        let expected = [
            Span {
                whole: false,
                block: 0,
                count: 1,
                low: 510,
                high: 512,
            },
            Span {
                whole: true,
                block: 1,
                count: 2,
                low: 512,
                high: 1536,
            },
            Span {
                whole: false,
                block: 3,
                count: 1,
                low: 1536,
                high: 1538,
            },
        ];
        assert_eq!(rt; units.as_slice(), expected.as_slice());
        Ok(())
    }
}
