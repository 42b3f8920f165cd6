//! How runs end: by their words, by a bad line, and by a fault of the source or of the sink.

use crate::run::{Streams, run_words};
use crate::table::Table;
use disk_core::MemDisk;
use pad_replay::store_path;
use std::alloc::{AllocError, Global};

/// A run: the words, the script, how many bytes the source gives in a call, which call of the source and of the sink
/// fails, and how many bytes the sink takes. How it is to end: the status, the number of lines, the number of steps
/// taken, how many bytes of the script are left in the source, and what was printed.
#[derive(Clone, Copy)]
struct Case {
    name: &'static str,
    words: &'static [&'static str],
    script: &'static [u8],
    piece: usize,
    source_fails: Option<u32>,
    sink_fails: Option<u32>,
    room: usize,
    status: u8,
    line: u32,
    steps: usize,
    left: usize,
    printed: &'static [u8],
}

/// A script of no lines, replayed with no failing call.
const WHOLE: Case = Case {
    name: "no lines",
    words: &["replay"],
    script: b"",
    piece: 100,
    source_fails: None,
    sink_fails: None,
    room: 16384,
    status: 0,
    line: 0,
    steps: 0,
    left: 0,
    printed: b"",
};

/// A script whose second line is bad, behind `open 1`.
const SECOND_BAD: Case = Case {
    status: 1,
    line: 2,
    steps: 1,
    printed: b"> open 1\n< 1 told open\n! bad line 2\n",
    ..WHOLE
};

/// A script of one line, run with words that are no form.
const USAGE: Case = Case {
    script: b"auto\n",
    status: 2,
    left: 5,
    ..WHOLE
};

/// A generated run, which reads nothing of the script.
const GENERATED: Case = Case {
    script: b"boot\n",
    left: 5,
    ..WHOLE
};

const ENTRY_1234: &[u8] = b"\
boot
open 1
listen 1 execute
submit 1 0 getpin 4 16 hold 000F03FF00000000 0003000000000000
auto
press 1
press 2
press 3
press 4
press enter
";

const OPENING_PRINTED: &[u8] = b"> boot / loaded 0 first\n> open 1\n< 1 told open\n";

/// How runs end, and what was printed by then.
const CASES: &[Case] = &[
    WHOLE,
    Case {
        name: "a path, over the disk that is handed in",
        words: &["replay", "store", "p"],
        ..WHOLE
    },
    Case {
        name: "a comment and an empty line",
        script: b"# first\n\nopen 1\n",
        line: 3,
        steps: 1,
        printed: b"> open 1\n< 1 told open\n",
        ..WHOLE
    },
    Case {
        name: "session 17",
        script: b"open 1\nopen 17\n",
        ..SECOND_BAD
    },
    Case {
        name: "no last line feed",
        script: b"open 1\nauto",
        ..SECOND_BAD
    },
    Case {
        name: "a carriage return",
        script: b"open 1\nauto\r\n",
        ..SECOND_BAD
    },
    Case {
        name: "bytes above 127",
        script: b"open 1\n\xFFauto\n",
        ..SECOND_BAD
    },
    Case {
        name: "what stands behind the first bad line is not read",
        script: b"open 1\nopen 17\nopen 2\n",
        ..SECOND_BAD
    },
    Case {
        name: "the third line, behind two blank ones",
        script: b"# x\n\nopen 01\n",
        status: 1,
        line: 3,
        printed: b"! bad line 3\n",
        ..WHOLE
    },
    Case {
        name: "a mark that the sink refuses",
        script: b"open 17\n",
        sink_fails: Some(1),
        status: 4,
        ..WHOLE
    },
    Case {
        name: "room for a part of the mark",
        script: b"open 17\n",
        room: 5,
        status: 4,
        printed: b"! bad",
        ..WHOLE
    },
    Case {
        name: "the second read fails, with five lines taken whole",
        script: ENTRY_1234,
        source_fails: Some(2),
        status: 3,
        line: 5,
        steps: 5,
        left: 40,
        printed: b"> boot / loaded 0 first\n> open 1\n< 1 told open\n> listen 1 execute\n< 1 told listening execute\n\
> submit 1 0 getpin 4 16 hold 000F03FF00000000 0003000000000000\n< 1 request 1\n> begin\n< 1 event ENTERDATA\n",
        ..WHOLE
    },
    Case {
        name: "the thirteenth read of one byte fails",
        script: ENTRY_1234,
        piece: 1,
        source_fails: Some(13),
        status: 3,
        line: 2,
        steps: 2,
        left: 128,
        printed: OPENING_PRINTED,
        ..WHOLE
    },
    Case {
        name: "the first write fails, with one line read byte by byte",
        script: ENTRY_1234,
        piece: 1,
        sink_fails: Some(1),
        status: 4,
        line: 1,
        steps: 1,
        left: 135,
        ..WHOLE
    },
    Case {
        name: "the third write fails",
        script: ENTRY_1234,
        sink_fails: Some(3),
        status: 4,
        line: 3,
        steps: 3,
        left: 40,
        printed: b"> boot / loaded 0 first\n> open 1\n< 1 told open\n",
        ..WHOLE
    },
    Case {
        name: "room for 54 bytes",
        script: ENTRY_1234,
        room: 54,
        status: 4,
        line: 3,
        steps: 3,
        left: 40,
        printed: b"> boot / loaded 0 first\n> open 1\n< 1 told open\n> liste",
        ..WHOLE
    },
];

/// N rounds have 8 + 10 N + 4 Z lines, with Z a quarter of N rounded down. They take 11 + 12 N + 4 Z steps, of which
/// 2 + 3 N + Z are requests; 2 + 3 N of these are answered, and Z are refused after a cut. Of the PIN checks, one in ten
/// says yes.
const ROUNDS: [Case; 4] = [
    Case {
        name: "1 round",
        words: &["gen", "1"],
        line: 18,
        steps: 23,
        printed: b"rounds 1 steps 23 requests 5 ok 5 refused 0 yes 1 cuts 0\n",
        ..GENERATED
    },
    Case {
        name: "4 rounds",
        words: &["gen", "4"],
        line: 52,
        steps: 63,
        printed: b"rounds 4 steps 63 requests 15 ok 14 refused 1 yes 1 cuts 1\n",
        ..GENERATED
    },
    Case {
        name: "10 rounds",
        words: &["gen", "10"],
        line: 116,
        steps: 139,
        printed: b"rounds 10 steps 139 requests 34 ok 32 refused 2 yes 1 cuts 2\n",
        ..GENERATED
    },
    Case {
        name: "room for a part of the summary",
        words: &["gen", "1"],
        room: 10,
        status: 4,
        line: 18,
        steps: 23,
        printed: b"rounds 1 s",
        ..GENERATED
    },
];

const ZEROS: &str = "0000000000000000000000000000000000000000000000000000000000000000";

const LETTERS: &str = "abcdefABCDEF0000000000000000000000000000000000000000000000000000";

/// Words that are no form. The number of rounds is one from 1 to 5,000 without a leading zero.
const OTHER_WORDS: [&[&str]; 18] = [
    &[],
    &["Replay"],
    &["replay", "x"],
    &["replay", "store"],
    &["replay", "store", ""],
    &["replay", "store", "p", "q"],
    &["replay", "stored", "p"],
    &["replay", "seed"],
    &["replay", "seed", "00"],
    &["replay", "seed", ZEROS, "store", "p"],
    &["replay", "store", "p", "seed", "00"],
    &["gen"],
    &["gen", "0"],
    &["gen", "5001"],
    &["gen", "01"],
    &["gen", "+1"],
    &["gen", "1", "2"],
    &["Gen", "1"],
];

/// Words that are a form.
const FORMS: [&[&str]; 5] = [
    &["replay"],
    &["replay", "store", "p"],
    &["replay", "seed", ZEROS],
    &["replay", "seed", LETTERS],
    &["replay", "store", "p", "seed", ZEROS],
];

/// Words, and the path of the disk's file that they name.
const PATHS: [(&[&str], Option<&str>); 7] = [
    (&["replay", "store", "disk"], Some("disk")),
    (&["replay", "store", "store"], Some("store")),
    (&["replay"], None),
    (&["replay", "store"], None),
    (&["replay", "store", ""], None),
    (&["store", "replay", "disk"], None),
    (&["replay", "store", "disk", "disk"], None),
];

/// The table of how runs end.
pub fn endings(alloc: Global) -> Result<Table, AllocError> {
    let mut table = Table::named(alloc, "how runs end");
    for case in CASES {
        compare(alloc, case, &mut table)?;
    }
    for case in &ROUNDS {
        compare(alloc, case, &mut table)?;
    }
    Ok(table)
}

/// The table of the words of the command line: those that are no form, those that are one, and the path that they name.
pub fn forms(alloc: Global) -> Result<Table, AllocError> {
    let mut table = Table::named(alloc, "the words of the command line");
    for words in OTHER_WORDS {
        compare(alloc, &Case { words, ..USAGE }, &mut table)?;
    }
    for words in FORMS {
        compare(alloc, &Case { words, ..WHOLE }, &mut table)?;
    }
    for (texts, path) in PATHS {
        let mut words = Vec::new(alloc);
        for text in texts {
            words.push(String::from_str(alloc, text)?)?;
        }
        table.check("the path of a store", store_path(words.as_slice()) == path)?;
    }
    Ok(table)
}

fn compare(alloc: Global, case: &Case, table: &mut Table) -> Result<(), AllocError> {
    let streams = Streams {
        piece: case.piece,
        source_fails: case.source_fails,
        sink_fails: case.sink_fails,
        room: case.room,
    };
    let outcome = run_words(alloc, case.words, case.script, streams, &mut MemDisk::new())?;
    let is_wanted = outcome.status == case.status
        && outcome.line == case.line
        && outcome.steps == case.steps
        && outcome.left == case.left
        && outcome.printed.as_slice() == case.printed;
    table.compare(case.name, is_wanted, &outcome)
}
