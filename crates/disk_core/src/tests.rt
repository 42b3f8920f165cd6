//! What no clause says: that memory suffices, and that a failure of the host is a failure here.
use super::*;
use pad_words::Octets;
use std::alloc::Allocator;
use std::fmt::Display;
use std::io;
use std::io::{BufRead, Error, ErrorKind, Input, Lines, Print, Read};
use std::test::Fail;

#[test]
fn source_in_pieces(rt: HostRuntime) -> Result<(), Fail> {
    let bytes = Octets::copy(rt.alloc(), b"abcdefg").expect(&rt, "memory");
    let fails = Calls::of(&[2]).expect(&rt, "at most 32 numbers");
    let mut source = MemSource::new(bytes, 3, fails);
    let calls: [(usize, Result<&[u8], Failed>); 6] = [
        (4, Ok(b"abc")),
        (4, Err(Failed)),
        (2, Ok(b"de")),
        (4, Ok(b"fg")),
        (4, Ok(b"")),
        (0, Ok(b"")),
    ];
    for (at, (len, want)) in calls.into_iter().enumerate() {
        let mut piece = [0; 4];
        let len = len.min(piece.len());
        let taken = source.take(&mut piece[..len]);
        assert_eq!(rt; taken.map(|n| &piece[..n]), want, "call {}", at + 1);
    }
    Ok(())
}

#[test]
fn sink_fills_up(rt: HostRuntime) -> Result<(), Fail> {
    let fails = Calls::of(&[2]).expect(&rt, "at most 32 numbers");
    let sink = MemSink::new(rt.alloc(), 5, fails).expect(&rt, "memory");
    let mut sink = Counted::new(sink);
    let calls: [(&[u8], Result<usize, Failed>); 5] = [
        (b"abc", Ok(3)),
        (b"def", Err(Failed)),
        (b"def", Ok(2)),
        (b"f", Err(Failed)),
        (b"", Ok(0)),
    ];
    for (at, (piece, want)) in calls.into_iter().enumerate() {
        assert_eq!(rt; sink.give(piece), want, "call {}", at + 1);
    }
    assert_eq!(rt; sink.inner().bytes(), b"abcde".as_slice());
    Ok(())
}

#[test]
fn whole_text_or_a_front(rt: HostRuntime) -> Result<(), Fail> {
    let none = Calls::of(&[]).expect(&rt, "at most 32 numbers");
    let sink = MemSink::new(rt.alloc(), 5, none).expect(&rt, "memory");
    let mut sink = Counted::new(sink);
    assert_eq!(rt; give_all(&mut sink, b"abc"), Ok(()));
    assert_eq!(rt; give_all(&mut sink, b"def"), Err(Failed));
    assert_eq!(rt; sink.inner().bytes(), b"abcde".as_slice());
    Ok(())
}

#[test]
fn more_than_32_calls(rt: HostRuntime) {
    assert!(rt; Calls::of(&[7; 32]).is_some());
    assert!(rt; Calls::of(&[7; 33]).is_none());
}

// A host whose standard input is a few bytes and then a fault, and whose standard output is a fault.
struct FaultyHost;

#[derive(Drop)]
struct FaultyReader {
    bytes: &'static [u8],
}

fn fault() -> Error {
    Error::from(ErrorKind::Other)
}

impl Read for FaultyReader {
    fn read(&mut self, buf: &mut [u8]) -> io::Result<usize> {
        if self.bytes.is_empty() {
            return Err(fault());
        }
        self.bytes.read(buf)
    }
}

impl BufRead for FaultyReader {
    fn fill_buf(&mut self) -> io::Result<&[u8]> {
        Err(fault())
    }

    fn consume(&mut self, _amount: usize) {}
}

impl Input for FaultyHost {
    type Reader = FaultyReader;

    fn read_line<A: Allocator + Clone>(&self, _buf: &mut String<A>) -> io::Result<usize> {
        Err(fault())
    }

    fn lines<A: Allocator>(&self, alloc: A) -> Lines<FaultyReader, A> {
        self.reader().lines(alloc)
    }

    fn reader(&self) -> FaultyReader {
        FaultyReader { bytes: b"ab" }
    }
}

impl Print for FaultyHost {
    fn print<D: Display + Drop>(&self, _value: D) -> io::Result<()> {
        Err(fault())
    }

    fn println<D: Display + Drop>(&self, _value: D) -> io::Result<()> {
        Err(fault())
    }

    fn write_all(&self, _bytes: &[u8]) -> io::Result<()> {
        Err(fault())
    }
}

#[test]
fn standard_input(rt: HostRuntime) {
    assert_eq!(rt; StdSource::new(&rt).take(&mut []), Ok(0));

    let mut source = StdSource::new(&FaultyHost);
    let mut piece = [0; 4];
    assert_eq!(rt; source.take(&mut piece), Ok(2));
    assert_eq!(rt; piece, [97, 98, 0, 0]);
    assert_eq!(rt; source.take(&mut piece), Err(Failed));

    let mut source = StdSource::of(b"abcde".as_slice());
    assert_eq!(rt; source.take(&mut piece), Ok(4));
    assert_eq!(rt; piece, *b"abcd");
    assert_eq!(rt; source.take(&mut piece), Ok(1));
    assert_eq!(rt; source.take(&mut piece), Ok(0));
}

#[test]
fn standard_output(rt: HostRuntime) {
    assert_eq!(rt; StdSink::new(&rt).give(b"given\n"), Ok(6));
    assert_eq!(rt; StdSink::new(&FaultyHost).give(b"given\n"), Err(Failed));
    assert_eq!(rt; StdSink::of(Vec::new(rt.alloc())).give(b"given\n"), Ok(6));
}
