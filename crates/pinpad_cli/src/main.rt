//! Replays a script of the pad and prints its transcript.
#![tactic(auto)]

ghost use Rattle.std.specs.Prelude.{◌≡◌};

use command_words::program_words;
use disk_core::{ArmDisk, Counted, MemDisk, StdSink, StdSource};
use file_disk::{FileDisk, OpenFault};
use pad_replay::{Ended, run_pinpad, store_path};
use std::process::ExitCode;

/// What is printed on standard error where the words are no form.
const USAGE: &str = "usage: pinpad_cli replay [store PATH] [seed HEX] | gen N";

fn main(rt: HostRuntime) -> ExitCode {
    let Some(words) = program_words(&rt) else {
        return ExitCode::from(5);
    };
    match store_path(words.as_slice()) {
        None => replay(&rt, words.as_slice(), &mut MemDisk::new()),
        Some(path) => match FileDisk::on_path(&rt, path) {
            Ok(mut disk) => replay(&rt, words.as_slice(), &mut disk),
            Err(OpenFault::NoMemory) => ExitCode::from(5),
            Err(OpenFault::Failed) => {
                let _ = eprintln!(rt; "store fault");
                ExitCode::from(8)
            }
        },
    }
}

// Replays the script of standard input, or a generated one, over this disk, and prints what the words ask for.
fn replay<D: ArmDisk>(rt: &HostRuntime, words: &[String], disk: &mut D) -> ExitCode {
    let mut source = StdSource::new(rt);
    let mut sink = Counted::new(StdSink::new(rt));
    let ended = run_pinpad(rt.alloc(), words, &mut source, &mut sink, disk);
    if ended.status == 2 {
        let _ = eprintln!(rt; "{USAGE}");
    }
    ExitCode::from(exit_status(&ended))
}

// The exit status of the program is that of the run.
fn exit_status(ended: &Ended) -> u8
    ensures { result ≡ ended.now.status }
{
    ended.status
}
