//! Lane scripts in memory, and what no clause says: that memory suffices.
use crate::{ScriptFault, read_lanes};
use disk_core::{Calls, MemSource};
use pad_steps::Step;
use pad_words::Octets;
use script_lang::LaneStep;
use std::alloc::Global;
use std::process::Abort;
use std::test::Fail;

/// A lane, and the numbers of its steps.
type Lane = (usize, &'static [u32]);

/// A script, how many bytes its source gives in a call, and which calls fail. What it is to give: the lanes that have
/// steps, or a fault.
struct Case {
    name: &'static str,
    script: &'static [u8],
    piece: usize,
    fails: &'static [u32],
    lanes: Result<&'static [Lane], ScriptFault>,
}

const LANES: &[u8] =
    b"# three lanes\n\n@2 tick 5\n@1 tick 1\n@16 tick 160\n#@2 tick 7\n@2 await entry\n\
    @1 ask 1 reply #3\n\n@2 tick 6\n@10 tick 100\n";

const STEPS: &[Lane] = &[(1, &[1, 3]), (2, &[5, 0, 6]), (10, &[100]), (16, &[160])];

const CASES: &[Case] = &[
    Case {
        name: "lanes, blank lines and comments",
        script: LANES,
        piece: 4096,
        fails: &[],
        lanes: Ok(STEPS),
    },
    Case {
        name: "pieces of one byte",
        script: LANES,
        piece: 1,
        fails: &[],
        lanes: Ok(STEPS),
    },
    Case {
        name: "no lines",
        script: b"",
        piece: 100,
        fails: &[],
        lanes: Ok(&[]),
    },
    Case {
        name: "a bad line between two others",
        script: b"@1 tick 1\n@17 tick 1\n@1 tick 2\n",
        piece: 100,
        fails: &[],
        lanes: Err(ScriptFault::BadLine(2)),
    },
    Case {
        name: "a last line without a line feed",
        script: b"@1 tick 1\n\n@1 tick 2",
        piece: 100,
        fails: &[],
        lanes: Err(ScriptFault::BadLine(3)),
    },
    Case {
        name: "a source that fails at its second call",
        script: b"@1 tick 1\n",
        piece: 100,
        fails: &[2],
        lanes: Err(ScriptFault::Failed),
    },
];

// The number that a step of the cases is known by: that of a tick or of a Submit, and 0 of any other.
fn number_of(step: &LaneStep) -> u32 {
    match step {
        LaneStep::Plain(Step::Tick(seconds)) => *seconds,
        LaneStep::AskReply(_, number) => *number,
        _ => 0,
    }
}

// The numbers of the lane with this number.
fn numbers_of(lanes: &[Lane], lane: usize) -> &'static [u32] {
    for (number, steps) in lanes {
        if *number == lane {
            return steps;
        }
    }
    &[]
}

// Whether these are the steps with these numbers.
fn are_steps(steps: &[LaneStep], numbers: &[u32]) -> bool {
    steps.len() == numbers.len() && steps.iter().map(number_of).eq(numbers.iter().copied())
}

// Compares what a script gives with what it is to give.
fn compare(rt: &impl Abort, alloc: Global, case: &Case) -> Result<(), Fail> {
    let name = case.name;
    let fails = Calls::of(case.fails).ok_or("at most 32 calls")?;
    let mut source = MemSource::new(Octets::copy(alloc, case.script)?, case.piece.max(1), fails);
    match (read_lanes(alloc, &mut source), case.lanes) {
        (Ok(lanes), Ok(wanted)) => {
            for (place, steps) in lanes.items().iter().enumerate() {
                let numbers = numbers_of(wanted, place + 1);
                assert!(rt; are_steps(steps, numbers), "{name}: lane {}", place + 1);
            }
        }
        (Err(fault), Err(wanted)) => assert_eq!(rt; fault, wanted, "{name}"),
        _ => assert!(rt; false, "{name}"),
    }
    Ok(())
}

#[test]
fn scripts_are_read_into_lanes(rt: HostRuntime) -> Result<(), Fail> {
    for case in CASES {
        compare(&rt, rt.alloc(), case)?;
    }
    Ok(())
}
