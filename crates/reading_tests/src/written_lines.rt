//! Lines that are written one by one.

use crate::texts::repeated;
use ldif::{LineWidth, WriteFault, put_line_to, write_line};
use std::alloc::Global;
use std::test::Fail;
use try_device::TrySink;

// a name, a value, and the line that is written
const ROWS: [(&str, &[u8], &str); 6] = [
    ("description", b"folded", "description: folded\n"),
    ("description", b"a ", "description:: YSA=\n"),
    ("description", b"\xc3\xa9", "description:: w6k=\n"),
    ("userPassword", b"secret", "userPassword: secret\n"),
    ("userPassword", b"", "userPassword:\n"),
    ("cn", b":a", "cn:: OmE=\n"),
];

fn is_written(alloc: Global, name: &[u8], value: &[u8], line: &[u8]) -> bool {
    let mut sink = TrySink::new(alloc, 5, None);
    write_line(alloc, &mut sink, name, value).is_ok() && sink.bytes() == line
}

#[test]
fn a_line_is_written(rt: HostRuntime) -> Result<(), Fail> {
    for (name, value, line) in ROWS {
        let is = is_written(rt.alloc(), name.as_bytes(), value, line.as_bytes());
        assert!(rt; is, "{line}");
    }
    Ok(())
}

// how many letters x a description has, and what stands behind the first 63 of them: a text, so many letters more, and another text. With the
// name, a colon and a space, 63 letters fill the first line of 76 bytes; with its space, 75 letters fill a further one.
const FOLDED: [(usize, &str, usize, &str); 3] = [
    (63, "\n", 0, ""),
    (64, "\n ", 1, "\n"),
    (139, "\n ", 75, "\n x\n"),
];

fn is_folded(alloc: Global, row: (usize, &str, usize, &str)) -> Result<bool, Fail> {
    let (count, middle, more, end) = row;
    let value = repeated(alloc, b"", b"x", count, b"")?;
    let first = repeated(alloc, b"description: ", b"x", 63, middle.as_bytes())?;
    let line = repeated(alloc, &first, b"x", more, end.as_bytes())?;
    Ok(is_written(alloc, b"description", &value, &line))
}

#[test]
fn a_line_of_more_than_76_bytes_is_folded(rt: HostRuntime) -> Result<(), Fail> {
    for row in FOLDED {
        assert!(rt; is_folded(rt.alloc(), row)?, "{}", row.0);
    }
    Ok(())
}

// a width, a name, a value, and the line that is written
const WIDE: [(u32, &str, &[u8], &str); 7] = [
    (2, "cn", b"abc", "cn\n :\n  \n a\n b\n c\n"),
    (3, "cn", b"abcdef", "cn:\n  a\n bc\n de\n f\n"),
    (3, "cn", b"\xc3\xa9", "cn:\n : \n w6\n k=\n"),
    (20, "description", b"abcdefg", "description: abcdefg\n"),
    (20, "description", b"abcdefgh", "description: abcdefg\n h\n"),
    (
        20,
        "description",
        b"abcdefghijklmnopqrstuvwxyz0123456789",
        "description: abcdefg\n hijklmnopqrstuvwxyz\n 0123456789\n",
    ),
    (4294967295, "cn", b"a", "cn: a\n"),
];

fn is_put(
    alloc: Global,
    width: Option<LineWidth>,
    name: &[u8],
    value: &[u8],
    line: &[u8],
) -> Result<bool, Fail> {
    let mut out = Vec::new(alloc);
    let Some(width) = width else {
        return Ok(false);
    };
    put_line_to(alloc, &mut out, width, name, value)?;
    Ok(out.as_slice() == line)
}

#[test]
fn a_line_is_folded_to_its_width(rt: HostRuntime) -> Result<(), Fail> {
    for (bytes, name, value, line) in WIDE {
        let width = LineWidth::of(bytes);
        let is = is_put(rt.alloc(), width, name.as_bytes(), value, line.as_bytes())?;
        assert!(rt; is, "{line}");
    }
    Ok(())
}

#[test]
fn widths_have_two_bytes_at_least(rt: HostRuntime) {
    for (bytes, is) in [(0, false), (1, false), (2, true)] {
        assert!(rt; LineWidth::of(bytes).is_some() == is, "{bytes}");
    }
}

#[test]
fn a_line_is_not_folded_where_none_is(rt: HostRuntime) -> Result<(), Fail> {
    let alloc = rt.alloc();
    let value = repeated(alloc, b"", b"x", 10000, b"")?;
    let line = repeated(alloc, b"description: ", b"x", 10000, b"\n")?;
    let unfolded = Some(LineWidth::unfolded());
    assert!(rt; is_put(alloc, unfolded, b"description", &value, &line)?);
    Ok(())
}

// whether the first so many bytes are written, and then the sink fails
fn breaks_off(alloc: Global, limit: usize) -> bool {
    let mut sink = TrySink::new(alloc, 5, Some(limit));
    write_line(alloc, &mut sink, b"cn", b":a") == Err(WriteFault::Device)
        && Some(sink.bytes()) == b"cn:: OmE=\n".get(..limit)
}

#[test]
fn a_line_breaks_off_where_its_sink_fails(rt: HostRuntime) {
    for limit in 0..10 {
        assert!(rt; breaks_off(rt.alloc(), limit), "{limit}");
    }
}
