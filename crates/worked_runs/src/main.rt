//! Replays the worked runs of the folder `data`, and compares what they print with what stands there.
//!
//! A run begins with a line `== NAME`. A line of what is printed begins with `> `, `< ` or `! `, and stands behind the line
//! of the script that makes it be printed. Every other line is one of the script.
#![tactic(auto)]

mod run;

use crate::run::runs_of;
use pad_words::NoMemory;
use std::alloc::Global;
use std::process::ExitCode;
use std::{fs, io};

/// The files, each of one theme.
const FILES: [&str; 7] = [
    "entries.txt",
    "blocks.txt",
    "checks.txt",
    "crypt.txt",
    "keys.txt",
    "power.txt",
    "sessions.txt",
];

// How many runs a text has, and what is to be told of those that print something else.
#[derive(Drop)]
struct Outcome {
    count: usize,
    told: String,
}

// Replays each run of the text.
fn replay_all(alloc: Global, text: &str) -> Result<Outcome, NoMemory> {
    let runs = runs_of(alloc, text)?;
    let mut told = String::new(alloc);
    for run in &runs {
        run.tell(alloc, &mut told)?;
    }
    Ok(Outcome {
        count: runs.len(),
        told,
    })
}

fn main(rt: HostRuntime) -> io::Result<ExitCode> {
    let mut status = ExitCode::SUCCESS;
    for file in FILES {
        let text = fs::read_to_string(&rt, file)?;
        let Ok(outcome) = replay_all(rt.alloc(), text.as_str()) else {
            return Ok(ExitCode::from(5));
        };
        println!(rt; "{file}: {} runs", outcome.count)?;
        if !outcome.told.is_empty() {
            println!(rt; "{}", outcome.told)?;
            status = ExitCode::FAILURE;
        }
    }
    Ok(status)
}
