//! Two lanes that wait for each other at a gate, so that neither can be done before the other.
use super::runs::words_of;
use disk_core::{Calls, Counted, MemDisk, MemSink, MemSource};
use pad_live_core::{Gate, run_live};
use pad_words::Octets;
use std::alloc::Global;
use std::sync::Wait;
use std::sync::atomic::{AtomicU64, Ordering};
use std::test::Fail;
use std::thread;
use std::thread::Threads;

/// Lane 1 enters a PIN, and lane 2 asks for the status meanwhile.
const SCRIPT: &str = "\
@1 boot
@1 open 1
@1 submit 1 0 getpin 4 16 hold 000F03FF00000000 0003000000000000
@1 await entry
@1 press 1
@1 press 2
@1 press 3
@1 press 4
@1 press enter
@1 await 1 reply #1
@2 open 2
@2 ask 2 status
";

/// What lane 1 and the worker print before lane 2 may ask, piece by piece.
const BEFORE: [&str; 4] = [
    "> boot / loaded 0 first\n",
    "> open 1\n< 1 told open\n",
    "> submit 1 0 getpin 4 16 hold 000F03FF00000000 0003000000000000\n< 1 request 1\n",
    "> begin\n",
];

/// What lane 2 prints first, anywhere before it asks.
const OPENED: &str = "> open 2\n< 2 told open\n";

/// What is printed from the question of lane 2 on.
const BEHIND: &str = "\
> ask 2 status
< 2 told status ready keys 0 holder 0 entry yes pin no pending 0
> press *
> press *
> press *
> press *
> press enter
< 1 ended 1 OK entered 4 enter
> ask 1 reply 1
< 1 told reply 1 OK entered 4 enter
";

/// Lane 1 waits before its first press until lane 2 had its answer, and lane 2 before its question until lane 1 came there.
#[derive(Drop)]
pub struct Meeting {
    pressing: AtomicU64,
    answered: AtomicU64,
    late: AtomicU64,
}

impl Meeting {
    pub fn new() -> Meeting {
        Meeting {
            pressing: AtomicU64::new(0),
            answered: AtomicU64::new(0),
            late: AtomicU64::new(0),
        }
    }

    // Gives up the processor until this is so, at most a million times.
    fn wait_for(&self, is_so: &AtomicU64) {
        for _ in 0..1_000_000 {
            if is_so.load(Ordering::SeqCst) != 0 {
                return;
            }
            thread::yield_now();
        }
        self.late.store(1, Ordering::SeqCst);
    }
}

impl Gate for Meeting {
    fn pass(&self, lane: u8, place: u32) {
        match (lane, place) {
            (1, 5) => {
                self.pressing.store(1, Ordering::SeqCst);
                self.wait_for(&self.answered);
            }
            (2, 2) => self.wait_for(&self.pressing),
            (2, 3) => self.answered.store(1, Ordering::SeqCst),
            _ => {}
        }
    }
}

// Whether this was printed, for a place where lane 2 was opened.
fn is_printed(alloc: Global, printed: &[u8]) -> Result<bool, Fail> {
    for place in 0..BEFORE.len() + 1 {
        let mut text = Octets::empty(alloc);
        for (at, piece) in BEFORE.into_iter().enumerate() {
            if at == place {
                text.append(OPENED.as_bytes())?;
            }
            text.append(piece.as_bytes())?;
        }
        if place == BEFORE.len() {
            text.append(OPENED.as_bytes())?;
        }
        text.append(BEHIND.as_bytes())?;
        if text.items() == printed {
            return Ok(true);
        }
    }
    Ok(false)
}

/// Whether the lanes met, and what they and the worker did was printed.
pub fn are_met<R: Threads + Wait + Sync>(
    rt: &R,
    alloc: Global,
    gate: &Meeting,
) -> Result<bool, Fail> {
    let words = words_of(alloc, &["live"])?;
    let fails = Calls::of(&[]).ok_or("no call")?;
    let mut source = MemSource::new(Octets::copy(alloc, SCRIPT.as_bytes())?, 100, fails);
    let fails = Calls::of(&[]).ok_or("no call")?;
    let mut sink = Counted::new(MemSink::new(alloc, 4096, fails)?);
    let disk = MemDisk::new();
    let ended = run_live(
        rt,
        alloc,
        words.as_slice(),
        &mut source,
        &mut sink,
        disk,
        gate,
    );
    let printed = is_printed(alloc, sink.inner().bytes())?;
    Ok(ended.status == 0 && gate.late.load(Ordering::SeqCst) == 0 && printed)
}
