//! Runs the lanes of a script on threads over one pad, and prints its history.
#![tactic(auto)]

ghost use Rattle.std.specs.Prelude.{◌≡◌};

use command_words::program_words;
use disk_core::{Counted, MemDisk, StdSink, StdSource};
use pad_live_core::{LiveEnded, OpenGate, run_live};
use std::process::ExitCode;

/// What is printed on standard error where the words are no form.
const USAGE: &str = "usage: pinpad_live live [seed HEX]";

// Runs the lane script of standard input over a new disk in memory, and prints its history.
fn main(rt: HostRuntime) -> ExitCode {
    let Some(words) = program_words(&rt) else {
        return ExitCode::from(5);
    };
    let mut source = StdSource::new(&rt);
    let mut sink = Counted::new(StdSink::new(&rt));
    let disk = MemDisk::new();
    let ended = run_live(
        &rt,
        rt.alloc(),
        words.as_slice(),
        &mut source,
        &mut sink,
        disk,
        &OpenGate,
    );
    if ended.status == 2 {
        let _ = eprintln!(rt; "{USAGE}");
    }
    ExitCode::from(exit_status(&ended))
}

// The exit status of the program is that of the run.
fn exit_status(ended: &LiveEnded<MemDisk>) -> u8
    ensures { result ≡ ended.now.status }
{
    ended.status
}
