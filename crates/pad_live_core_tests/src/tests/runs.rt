//! Lane scripts over memory.
use disk_core::{Calls, Counted, MemDisk, MemSink, MemSource};
use pad_live_core::{OpenGate, run_live};
use pad_words::Octets;
use std::alloc::Global;
use std::sync::Wait;
use std::test::Fail;
use std::thread::Threads;

/// A lane script, and what comes of it.
#[derive(Clone, Copy)]
pub struct Case {
    pub name: &'static str,
    pub words: &'static [&'static str],
    pub script: &'static str,
    pub status: u8,
    pub line: u32,
    pub entries: usize,
    pub printed: &'static str,
}

/// How a run ended, with how many entries its history has and what was printed.
#[derive(Drop)]
pub struct Ended {
    pub status: u8,
    pub line: u32,
    pub entries: usize,
    pub has_disk: bool,
    pub printed: Octets,
}

impl Ended {
    /// Whether this was printed.
    pub fn has_printed(&self, text: &str) -> bool {
        self.printed.items() == text.as_bytes()
    }
}

/// The calls of the source and of the sink that fail, and how many bytes the sink has room for.
#[derive(Clone, Copy)]
pub struct Outside {
    pub source: &'static [u32],
    pub sink: &'static [u32],
    pub room: usize,
}

/// No call fails, and there is room.
pub const SOUND: Outside = Outside {
    source: &[],
    sink: &[],
    room: 65536,
};

/// The words of a command line.
pub fn words_of(alloc: Global, words: &[&str]) -> Result<Vec<String>, Fail> {
    let mut list = Vec::new(alloc);
    for word in words {
        list.push(String::from_str(alloc, word)?)?;
    }
    Ok(list)
}

/// Runs a script with an open gate.
pub fn run_script<R: Threads + Wait + Sync>(
    rt: &R,
    alloc: Global,
    words: &[&str],
    script: &str,
    outside: &Outside,
) -> Result<Ended, Fail> {
    let words = words_of(alloc, words)?;
    let source_fails = Calls::of(outside.source).ok_or("at most 32 calls")?;
    let sink_fails = Calls::of(outside.sink).ok_or("at most 32 calls")?;
    let mut source = MemSource::new(Octets::copy(alloc, script.as_bytes())?, 100, source_fails);
    let mut sink = Counted::new(MemSink::new(alloc, outside.room, sink_fails)?);
    let disk = MemDisk::new();
    let ended = run_live(
        rt,
        alloc,
        words.as_slice(),
        &mut source,
        &mut sink,
        disk,
        &OpenGate,
    );
    Ok(Ended {
        status: ended.status,
        line: ended.line,
        entries: ended.history.items().len(),
        has_disk: ended.disk.is_some(),
        printed: Octets::copy(alloc, sink.inner().bytes())?,
    })
}

/// Runs the script of a case.
pub fn run_case<R: Threads + Wait + Sync>(
    rt: &R,
    alloc: Global,
    case: &Case,
) -> Result<Ended, Fail> {
    run_script(rt, alloc, case.words, case.script, &SOUND)
}
