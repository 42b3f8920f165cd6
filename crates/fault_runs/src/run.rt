//! A run of a script, and how it ended.

use disk_core::{ArmDisk, Calls, Counted, MemDisk, MemSink, MemSource, Source};
use pad_replay::run_pinpad;
use pad_steps::DiskWord;
use pad_words::Octets;
use std::alloc::{AllocError, Global};

/// The most bytes that a run prints.
const ROOM: usize = 65_536;

/// How many bytes a source gives in a call, where nothing else is said.
const PIECE: usize = 4096;

/// What a run reads from and prints to: the most bytes that the source gives in a call, the call of the source and that
/// of the sink that fails, and the most bytes that the sink takes.
#[derive(Clone, Copy)]
pub struct Streams {
    pub piece: usize,
    pub source_fails: Option<u32>,
    pub sink_fails: Option<u32>,
    pub room: usize,
}

/// No call of the source or of the sink fails.
pub const SOUND: Streams = Streams {
    piece: PIECE,
    source_fails: None,
    sink_fails: None,
    room: ROOM,
};

/// How a run ended: its status, the number of its last line, how many steps were taken and how many of them were struck,
/// how many bytes of the script are left in the source, and what was printed.
#[derive(Drop)]
pub struct Outcome {
    pub status: u8,
    pub line: u32,
    pub steps: usize,
    pub strikes: usize,
    pub left: usize,
    pub printed: Vec<u8>,
}

impl Outcome {
    /// It ended with this status, and this was printed.
    pub fn is_ended(&self, status: u8, printed: &str) -> bool {
        self.status == status && self.printed.as_slice() == printed.as_bytes()
    }

    /// What was printed. What is no text reads as nothing.
    pub fn text(&self) -> &str {
        str::from_utf8(self.printed.as_slice()).unwrap_or("")
    }
}

/// Replays a script over a disk, under the seed of zeros.
pub fn run<D: ArmDisk>(
    alloc: Global,
    script: &[u8],
    streams: Streams,
    disk: &mut D,
) -> Result<Outcome, AllocError> {
    run_words(alloc, &["replay"], script, streams, disk)
}

/// Runs with these words of the command line.
pub fn run_words<D: ArmDisk>(
    alloc: Global,
    texts: &[&str],
    script: &[u8],
    streams: Streams,
    disk: &mut D,
) -> Result<Outcome, AllocError> {
    let mut words = Vec::new(alloc);
    for text in texts {
        words.push(String::from_str(alloc, text)?)?;
    }
    let script = Octets::of(Vec::from_slice(alloc, script)?);
    let mut source = MemSource::new(script, streams.piece.max(1), one_call(streams.source_fails));
    let sink = MemSink::new(alloc, streams.room, one_call(streams.sink_fails));
    let mut sink = Counted::new(sink.map_err(|_| AllocError)?);
    let ended = run_pinpad(alloc, words.as_slice(), &mut source, &mut sink, disk);
    Ok(Outcome {
        status: ended.status,
        line: ended.line,
        steps: ended.words.items().len(),
        strikes: ended
            .words
            .items()
            .iter()
            .filter(|word| is_strike(word))
            .count(),
        left: bytes_left(&mut source),
        printed: Vec::from_slice(alloc, sink.inner().bytes())?,
    })
}

// How many bytes a source still gives, which has at most 4,294,967,295 and of which no call fails any more.
fn bytes_left(source: &mut MemSource) -> usize {
    let mut piece = [0; 256];
    let mut count: usize = 0;
    for _ in 0..u32::MAX {
        match source.take(&mut piece) {
            Ok(0) => return count,
            Ok(more) => count = count.saturating_add(more),
            Err(_) => return count,
        }
    }
    count
}

/// Replays a script over a new disk.
pub fn run_anew(alloc: Global, script: &str) -> Result<Outcome, AllocError> {
    run(alloc, script.as_bytes(), SOUND, &mut MemDisk::new())
}

// The call of this number, or none.
fn one_call(number: Option<u32>) -> Calls {
    let calls = match number {
        Some(number) => Calls::of(&[number]),
        None => Calls::of(&[]),
    };
    match calls {
        Some(calls) => calls,
        None => unreachable!(),
    }
}

// A call of the disk failed in the step, or the power was cut in it.
fn is_strike(word: &DiskWord) -> bool {
    matches!(word, DiskWord::Failed(_) | DiskWord::Cut(_))
}
