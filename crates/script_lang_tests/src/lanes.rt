//! Lines of lane scripts, in and outside the grammar.
ghost use Rattle.std.specs.Prelude.{IsTrue};
ghost use Rattle.pad_steps.specs.Formed.{is_well_formed};
ghost use Rattle.script_lang.specs.LaneSpelling.{IsFormedStep};

use pad_steps::Step;
use pad_words::{NoMemory, Octets, Session};
use script_lang::writing::write_number;
use script_lang::{
    LaneId, LaneLine, LaneStep, LineFault, lane_lines_are_spelled, read_lane_line, write_step,
};
use std::alloc::Global;

/// What a line is: its lane, and the session and the number of a step that stands in lane scripts alone.
#[derive(Clone, Copy, PartialEq)]
enum Is {
    Outside,
    Blank,
    Plain(u8),
    Cancel(u8, u8, u32),
    Ask(u8, u8, u32),
    AwaitEntry(u8),
    Await(u8, u8, u32),
}

const LINES: &[(&str, Is)] = &[
    ("", Is::Blank),
    ("#", Is::Blank),
    ("#@1 open 1", Is::Blank),
    ("@1 open 1", Is::Plain(1)),
    ("@16 close 16", Is::Plain(16)),
    ("@2 listen 1 both", Is::Plain(2)),
    ("@9 lock 1", Is::Plain(9)),
    ("@10 unlock 1", Is::Plain(10)),
    (
        "@3 submit 1 0 getpin 4 4 auto 000303FF00000000 0003000000000000",
        Is::Plain(3),
    ),
    ("@4 submit 1 7 import K clear 00FF 0001 none", Is::Plain(4)),
    ("@2 press fdk32", Is::Plain(2)),
    ("@1 tick 1000000", Is::Plain(1)),
    ("@1 ask 1 status", Is::Plain(1)),
    ("@1 ask 1 key K", Is::Plain(1)),
    ("@1 ask 1 names", Is::Plain(1)),
    ("@1 off", Is::Plain(1)),
    ("@1 boot", Is::Plain(1)),
    ("@5 cancel 16 0", Is::Cancel(5, 16, 0)),
    ("@1 cancel 1 #1", Is::Cancel(1, 1, 1)),
    ("@5 cancel 1 #4294967295", Is::Cancel(5, 1, 4_294_967_295)),
    ("@6 ask 2 reply #10", Is::Ask(6, 2, 10)),
    ("@7 await entry", Is::AwaitEntry(7)),
    ("@8 await 16 reply #3", Is::Await(8, 16, 3)),
    (" ", Is::Outside),
    ("@1", Is::Outside),
    ("@1 ", Is::Outside),
    ("@1 #", Is::Outside),
    ("@ open 1", Is::Outside),
    ("@0 open 1", Is::Outside),
    ("@01 open 1", Is::Outside),
    ("@17 open 1", Is::Outside),
    ("1 open 1", Is::Outside),
    ("@@1 open 1", Is::Outside),
    ("@1  open 1", Is::Outside),
    ("@1 open 1 ", Is::Outside),
    (" @1 open 1", Is::Outside),
    ("open 1", Is::Outside),
    ("auto", Is::Outside),
    ("@1 @1 open 1", Is::Outside),
    ("@1 auto", Is::Outside),
    ("@1 begin", Is::Outside),
    ("@1 finish", Is::Outside),
    ("@1 cut 1 old", Is::Outside),
    ("@1 fail 1", Is::Outside),
    ("@1 tick 0", Is::Outside),
    ("@1 cancel 1 5", Is::Outside),
    ("@1 cancel 1 #0", Is::Outside),
    ("@1 cancel 1 #01", Is::Outside),
    ("@1 cancel 1 #4294967296", Is::Outside),
    ("@1 cancel 1 #", Is::Outside),
    ("@1 cancel 17 #1", Is::Outside),
    ("@1 cancel 1 00", Is::Outside),
    ("@1 ask 1 reply 0", Is::Outside),
    ("@1 ask 1 reply 5", Is::Outside),
    ("@1 ask 1 reply #0", Is::Outside),
    ("@1 ask 1 key #1", Is::Outside),
    ("@1 await", Is::Outside),
    ("@1 await entry 1", Is::Outside),
    ("@1 await 1", Is::Outside),
    ("@1 await 1 status", Is::Outside),
    ("@1 await 1 reply 1", Is::Outside),
    ("@1 await 0 reply #1", Is::Outside),
    ("@1 await 1 reply #1 ", Is::Outside),
];

// whether the lane and the step are printed as this line
fn prints(alloc: Global, lane: u8, step: &Step, line: &[u8]) -> Result<bool, NoMemory>
    requires { IsTrue (is_well_formed step.now) }
{
    let mut text = Octets::copy(alloc, b"@")?;
    write_number(alloc, u32::from(lane), &mut text)?;
    text.push(b' ')?;
    write_step(alloc, step, false, &mut text)?;
    Ok(text.items() == line)
}

// a cancel of every request, or of one
fn cancel_of(lane: u8, session: Session, id: LaneId) -> Is {
    match id {
        LaneId::Zero => Is::Cancel(lane, session.get(), 0),
        LaneId::Nth(k) => Is::Cancel(lane, session.get(), k),
    }
}

// what this step of a lane is; none where a step of a script is not printed as this line
fn step_of(alloc: Global, lane: u8, step: &LaneStep, line: &[u8]) -> Result<Option<Is>, NoMemory>
    requires { IsFormedStep step.now }
{
    match step {
        LaneStep::Plain(step) => {
            let same = prints(alloc, lane, step, line)?;
            Ok(if same { Some(Is::Plain(lane)) } else { None })
        }
        LaneStep::Cancel(session, id) => Ok(Some(cancel_of(lane, *session, *id))),
        LaneStep::AskReply(session, k) => Ok(Some(Is::Ask(lane, session.get(), *k))),
        LaneStep::AwaitEntry => Ok(Some(Is::AwaitEntry(lane))),
        LaneStep::AwaitReply(session, k) => Ok(Some(Is::Await(lane, session.get(), *k))),
    }
}

// what this line is
fn line_of(alloc: Global, line: &[u8]) -> Result<Option<Is>, NoMemory> {
    match read_lane_line(alloc, line) {
        Ok(LaneLine::Blank) => Ok(Some(Is::Blank)),
        Ok(LaneLine::At(lane, step)) => step_of(alloc, lane, &step, line),
        Err(LineFault::Outside) => Ok(Some(Is::Outside)),
        Err(LineFault::NoMemory) => Err(NoMemory),
    }
}

// the place of the first line that is read otherwise
fn wrong_line(alloc: Global, lines: &[(&str, Is)]) -> Result<Option<usize>, NoMemory> {
    for place in 0..lines.len() {
        if line_of(alloc, lines[place].0.as_bytes())? != Some(lines[place].1) {
            return Ok(Some(place));
        }
    }
    Ok(None)
}

#[test]
fn lane_lines_are_read(rt: HostRuntime) {
    lane_lines_are_spelled();
    assert_eq!(rt; wrong_line(rt.alloc(), LINES), Ok(None));
}

// whether a comment of so many bytes is a blank line
fn is_blank(alloc: Global, comment: &[u8]) -> Result<bool, NoMemory> {
    Ok(line_of(alloc, comment)? == Some(Is::Blank))
}

#[test]
fn comments_have_at_most_4096_bytes(rt: HostRuntime) {
    assert_eq!(rt; is_blank(rt.alloc(), &[b'#'; 4096]), Ok(true));
    assert_eq!(rt; is_blank(rt.alloc(), &[b'#'; 4097]), Ok(false));
}
