//! Where a filter is too deep, however deep it is.

use crate::texts::repeated;
use filter_text::{FilterFault, FilterFaultKind, read_filter};
use std::alloc::Global;
use std::test::Fail;

/// How many bytes stand before the parenthesis that is too deep.
fn deep_place(alloc: Global, text: &[u8]) -> Option<usize> {
    match read_filter(alloc, text) {
        Err(
            FilterFault::At {
                at,
                kind: FilterFaultKind::Deep,
            },
        ) => Some(at),
        _ => None,
    }
}

// a text's beginning, how often what goes on from there, and the place
const ROWS: [(&[u8], &[u8], usize, Option<usize>); 7] = [
    (b"", b"(!", 512, None),
    (b"", b"(!", 513, Some(1024)),
    (b" !", b"(!", 512, Some(1024)),
    (b"((a=b)))", b"(", 514, Some(521)),
    (b"", b"(", 100_000, Some(512)),
    (b"", b"(!", 100_000, Some(1024)),
    (b"", b"(&", 100_000, Some(1024)),
];

#[test]
fn the_first_that_is_too_deep_is_told(rt: HostRuntime) -> Result<(), Fail> {
    for (front, again, count, want) in ROWS {
        let text = repeated(rt.alloc(), front, again, count, b"")?;
        assert_eq!(rt; deep_place(rt.alloc(), &text), want, "{again:?} {count}");
    }
    Ok(())
}
