//! std's readers and writers as sources and sinks.

use device::{Device, OfRead, OfWrite, Sink, Source, push_all};
use std::io::{self, ErrorKind, Read, Write};

/// Whether a pull gives these bytes, or fails where there are none.
fn gives<S: Source>(source: &mut S, want: Option<&[u8]>) -> bool {
    if source.failures() == u64::MAX {
        return false;
    }
    let mut buffer = [0; 8];
    match source.pull(&mut buffer) {
        Ok(n) => want == Some(&buffer[..n]),
        Err(Device) => want.is_none(),
    }
}

/// Gives `ab`, an error, `cd`, an end, and then `ef` again and again.
#[derive(Drop)]
struct Troubled {
    calls: u32,
}

impl Read for Troubled {
    fn read(&mut self, buffer: &mut [u8]) -> io::Result<usize> {
        self.calls = self.calls.wrapping_add(1);
        let text: &[u8] = match self.calls {
            1 => b"ab",
            2 => return Err(io::Error::from(ErrorKind::ConnectionReset)),
            3 => b"cd",
            4 => b"",
            _ => b"ef",
        };
        if buffer.len() < text.len() {
            return Ok(0);
        }
        buffer[..text.len()].copy_from_slice(text);
        Ok(text.len())
    }
}

// what each pull gives, and how often the source failed then
const PULLS: [(Option<&[u8]>, u64); 7] = [
    (Some(b"ab"), 0),
    (None, 1),
    (Some(b"cd"), 1),
    (Some(b""), 1),
    (Some(b""), 1),
    (Some(b""), 1),
    (Some(b""), 1),
];

#[test]
fn an_error_of_a_reader_is_a_failure(rt: HostRuntime) {
    let mut source = OfRead::new(Troubled { calls: 0 });
    for (want, failures) in PULLS {
        assert!(rt; gives(&mut source, want), "{want:?}");
        assert_eq!(rt; source.failures(), failures);
    }
}

/// Takes two bytes, then none, then answers an error, then takes all.
#[derive(Drop)]
struct Reluctant {
    calls: u32,
}

impl Write for Reluctant {
    fn write(&mut self, bytes: &[u8]) -> io::Result<usize> {
        self.calls = self.calls.wrapping_add(1);
        match self.calls {
            1 => Ok(bytes.len().min(2)),
            2 => Ok(0),
            3 => Err(io::Error::from(ErrorKind::BrokenPipe)),
            _ => Ok(bytes.len()),
        }
    }

    fn flush(&mut self) -> io::Result<()> {
        Ok(())
    }
}

/// How many bytes a push takes, or none where it fails.
fn taken<W: Sink>(sink: &mut W, bytes: &[u8]) -> Option<usize> {
    if sink.failures() == u64::MAX {
        return None;
    }
    match sink.push(bytes) {
        Ok(n) => Some(n),
        Err(Device) => None,
    }
}

fn takes_all<W: Sink>(sink: &mut W, bytes: &[u8]) -> bool {
    sink.failures() < u64::MAX && push_all(sink, bytes).is_ok()
}

#[test]
fn a_write_that_takes_nothing_is_a_failure(rt: HostRuntime) {
    let mut sink = OfWrite::new(Reluctant { calls: 0 });
    assert!(rt; taken(&mut sink, b"abc") == Some(2));
    assert!(rt; taken(&mut sink, b"c") == None);
    assert_eq!(rt; sink.failures(), 1);
    assert!(rt; !takes_all(&mut sink, b"c"));
    assert_eq!(rt; sink.failures(), 2);
    assert!(rt; takes_all(&mut sink, b"c"));
    assert_eq!(rt; sink.failures(), 2);
}

/// Fills each buffer.
#[derive(Drop)]
struct Endless;

impl Read for Endless {
    fn read(&mut self, buffer: &mut [u8]) -> io::Result<usize> {
        Ok(buffer.len())
    }
}

/// Whether a source fills a buffer, and a sink takes it all.
fn moves<S: Source, W: Sink>(source: &mut S, sink: &mut W, piece: &mut [u8]) -> bool {
    source.failures() < u64::MAX && source.pull(piece) == Ok(piece.len()) && takes_all(sink, piece)
}

#[test]
fn more_than_4_gib_come_and_go(rt: HostRuntime) {
    let mut source = OfRead::new(Endless);
    let mut sink = OfWrite::new(Reluctant { calls: 3 });
    let mut piece = [0; 65536];
    for _ in 0..65537 {
        assert!(rt; moves(&mut source, &mut sink, &mut piece));
    }
}
