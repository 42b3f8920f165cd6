//! Lane scripts that are run.
mod meeting;
mod runs;
mod sixteen;

use meeting::{Meeting, are_met};
use runs::{Case, Ended, Outside, SOUND, run_case, run_script};
use sixteen::{AfterBoot, are_sixteen, sixteen_lanes};
use std::test::Fail;

/// Scripts whose transcript is the same in each run.
const CASES: [Case; 13] = [
    Case {
        name: "no line",
        words: &["live"],
        script: "",
        status: 0,
        line: 0,
        entries: 0,
        printed: "",
    },
    Case {
        name: "no lane",
        words: &["live"],
        script: "# A remark.\n\n",
        status: 0,
        line: 0,
        entries: 0,
        printed: "",
    },
    Case {
        name: "a step of the worker",
        words: &["live"],
        script: "@1 boot\n@1 begin\n",
        status: 1,
        line: 2,
        entries: 0,
        printed: "! bad line 2\n",
    },
    Case {
        name: "a lane above 16",
        words: &["live"],
        script: "@17 off\n",
        status: 1,
        line: 1,
        entries: 0,
        printed: "! bad line 1\n",
    },
    Case {
        name: "a line without its end, behind lanes that are good",
        words: &["live"],
        script: "@1 boot\n@2 open 2\n@3 open 3",
        status: 1,
        line: 3,
        entries: 0,
        printed: "! bad line 3\n",
    },
    Case {
        name: "a short seed",
        words: &["live", "seed", "00"],
        script: "@1 boot\n",
        status: 2,
        line: 0,
        entries: 0,
        printed: "",
    },
    Case {
        name: "words of the other program",
        words: &["replay"],
        script: "@1 boot\n",
        status: 2,
        line: 0,
        entries: 0,
        printed: "",
    },
    Case {
        name: "no word",
        words: &[],
        script: "@1 boot\n",
        status: 2,
        line: 0,
        entries: 0,
        printed: "",
    },
    Case {
        name: "a seed",
        words: &[
            "live",
            "seed",
            "00112233445566778899AABBCCDDEEFF00112233445566778899aabbccddeeff",
        ],
        script: "@16 boot\n",
        status: 0,
        line: 0,
        entries: 1,
        printed: "> boot / loaded 0 first\n",
    },
    Case {
        name: "a cancel before any submit",
        words: &["live"],
        script: "@1 open 1\n@1 cancel 1 #1\n",
        status: 0,
        line: 0,
        entries: 2,
        printed: "\
> open 1
< 1 told open
> cancel 1 4294967295
< 1 told INVALIDREQID
",
    },
    Case {
        name: "a submit that is refused is not awaited",
        words: &["live"],
        script: "@1 open 1\n@1 submit 2 0 maintain on\n@1 await 1 reply #1\n",
        status: 0,
        line: 0,
        entries: 3,
        printed: "\
> open 1
< 1 told open
> submit 2 0 maintain on
< 2 refused NOSESSION
> ask 1 reply 4294967295
< 1 told INVALIDREQID
",
    },
    Case {
        name: "an id that comes later",
        words: &["live"],
        script: "@1 open 1\n@1 ask 1 reply #1\n@1 cancel 1 0\n",
        status: 0,
        line: 0,
        entries: 3,
        printed: "\
> open 1
< 1 told open
> ask 1 reply 4294967295
< 1 told INVALIDREQID
> cancel 1 0
< 1 told cancel 0
",
    },
    Case {
        name: "a pin",
        words: &["live"],
        script: "\
@2 boot
@2 open 1
@2 submit 1 0 getpin 4 16 hold 000F03FF00000000 0003000000000000
@2 await entry
@2 press 1
@2 press 2
@2 press 3
@2 press 4
@2 press enter
@2 await 1 reply #1
",
        status: 0,
        line: 0,
        entries: 10,
        printed: "\
> boot / loaded 0 first
> open 1
< 1 told open
> submit 1 0 getpin 4 16 hold 000F03FF00000000 0003000000000000
< 1 request 1
> begin
> press *
> press *
> press *
> press *
> press enter
< 1 ended 1 OK entered 4 enter
> ask 1 reply 1
< 1 told reply 1 OK entered 4 enter
",
    },
];

#[test]
fn lanes_of_their_own(rt: HostRuntime) -> Result<(), Fail> {
    for case in CASES {
        let name = case.name;
        let ended = run_case(&rt, rt.alloc(), &case)?;
        assert_eq!(rt; ended.status, case.status, "{name}: status");
        assert_eq!(rt; ended.line, case.line, "{name}: line");
        assert_eq!(rt; ended.entries, case.entries, "{name}: entries");
        assert!(rt; ended.has_disk, "{name}: the disk");
        assert!(rt; ended.has_printed(case.printed), "{name}: printed");
    }
    Ok(())
}

/// Two steps of a lane.
const STEPS: &str = "@1 open 1\n@1 listen 1 both\n";

/// A script, the calls of source and sink that fail and the room of the sink, and how that ends: the status, how many
/// entries there are, and what was printed.
const FAULTS: [(&str, Outside, u8, usize, &str); 6] = [
    (
        STEPS,
        Outside {
            source: &[1],
            ..SOUND
        },
        3,
        0,
        "",
    ),
    (
        STEPS,
        Outside {
            source: &[2],
            ..SOUND
        },
        3,
        0,
        "",
    ),
    (
        STEPS,
        Outside {
            sink: &[1],
            ..SOUND
        },
        4,
        2,
        "",
    ),
    (
        STEPS,
        Outside {
            sink: &[2],
            ..SOUND
        },
        4,
        2,
        "> open 1\n< 1 told open\n",
    ),
    (STEPS, Outside { room: 13, ..SOUND }, 4, 2, "> open 1\n< 1 "),
    (
        "@1 begin\n",
        Outside {
            sink: &[1],
            ..SOUND
        },
        4,
        0,
        "",
    ),
];

// A source that fails starts no lane; a sink that fails takes nothing from the lanes.
#[test]
fn faults_outside(rt: HostRuntime) -> Result<(), Fail> {
    for (script, outside, status, entries, printed) in FAULTS {
        let ended: Ended = run_script(&rt, rt.alloc(), &["live"], script, &outside)?;
        assert_eq!(rt; ended.status, status, "status");
        assert_eq!(rt; ended.entries, entries, "entries");
        assert!(rt; ended.has_printed(printed), "printed");
    }
    Ok(())
}

#[test]
fn two_lanes_meet(rt: HostRuntime) -> Result<(), Fail> {
    let gate = Meeting::new();
    assert!(rt; are_met(&rt, rt.alloc(), &gate)?);
    Ok(())
}

#[test]
fn lanes_keep_their_order(rt: HostRuntime) -> Result<(), Fail> {
    let gate = AfterBoot::new();
    let history = sixteen_lanes(&rt, rt.alloc(), &gate)?;
    assert!(rt; are_sixteen(&history));
    Ok(())
}
