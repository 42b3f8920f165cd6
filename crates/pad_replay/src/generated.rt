// The lines of the generated script, made one after another.
ghost use Rattle.std.specs.Prelude.{◌≡◌, ◌<◌, ◌≤◌, ◌+◌, [], All, IfOk, IfSome, IsNone, IsTrue, length, true, ℕ};
ghost use Rattle.pad_replay.specs.Generated.{check_pin, cut_lines, enter_pin, generated_lines, head_lines, import_check_key, import_clear, import_mac_key, make_mac, press, round_lines, session_one, session_two, submit};
ghost use Rattle.pad_words.specs.Names.{is_key_name};
ghost use Rattle.pad_replay.specs.Generators.{IsLineAt};

use disk_core::{Keep, Strike};
use key_source::{Key, Mask};
use pad_steps::{
    Algorithm, CheckRequest, Classes, Command, CryptRequest, EntryRules, ImportRequest,
    ImportSource, PinRequest, Start, Step, Verify,
};
use pad_words::{Digit, Direction, KeyName, Nibbles, NoMemory, Octets, Session};
use script_lang::Line;
use std::alloc::Global;

// A part of the script: its head, a round by its number, or the power cut behind a round.
#[derive(Clone, Copy, Debug, PartialEq, Eq)]
enum Part {
    Head,
    Round(u16),
    Cut,
}

/// The lines of the generated script that are still to come: of a part from a place on, and behind it so many rounds
/// from the next one on.
#[derive(Clone, Copy, Debug, PartialEq, Eq)]
pub struct GeneratedLines {
    part: Part,
    place: usize,
    next: u16,
    left: u16,
}

impl GeneratedLines {
    ghost use Rattle.pad_replay.specs.Generators.{ComesFirst, IsWithin, lines_left, part_lines};

    /// The lines of a script of so many rounds, at most 5,000.
    pub fn new(rounds: u16) -> GeneratedLines
        requires { rounds ≤ 5000 }
        ensures lines { lines_left result ≡ generated_lines rounds }
        ensures within { IsWithin result }
    {
        GeneratedLines {
            part: Part::Head,
            place: 0,
            next: 0,
            left: rounds,
        }
    }

    /// The next line, if one is left. Where memory is wanting none is taken.
    pub fn next_line(&mut self, alloc: Global) -> Result<Option<Line>, NoMemory>
        requires within { IsWithin self.old }
        ensures next { IfOk result (ComesFirst (lines_left self.old) (lines_left self.new)) }
        ensures within { IsWithin self.new }
    {
        if self.place == self.part.length() {
            match self.next_part() {
                Some(next) => *self = next,
                None => return Ok(None),
            }
        }
        let line = self.part.line(alloc, self.place)?;
        self.place += 1;
        Ok(Some(line))
    }

    // The same lines from the next part on, if one is left.
    fn next_part(&self) -> Option<GeneratedLines>
        requires over { self.now.place ≡ length (part_lines self.now.part) }
        requires within { IsWithin self.now }
        ensures lines { IfSome result (λ script. lines_left script ≡ lines_left self.now) }
        ensures within { IfSome result IsWithin }
        ensures place { IfSome result (λ script. script.place ≡ 0) }
        ensures over { IsNone result → lines_left self.now ≡ [] }
    {
        if self.part.is_before_cut() {
            return Some(GeneratedLines {
                part: Part::Cut,
                place: 0,
                next: self.next,
                left: self.left,
            });
        }
        if self.left == 0 {
            return None;
        }
        Some(GeneratedLines {
            part: Part::Round(self.next),
            place: 0,
            next: self.next + 1,
            left: self.left - 1,
        })
    }
}

impl Part {
    ghost use Rattle.pad_replay.specs.Generators.{IsLineAt, lines_behind_part, part_lines};
    ghost use Rattle.std.specs.Bool.{OnFalse, OnTrue};

    // How many lines the part has.
    fn length(self) -> usize
        ensures { result ≡ length (part_lines self) }
    {
        match self {
            Part::Head => 8,
            Part::Round(_) => 10,
            Part::Cut => 4,
        }
    }

    // The power is cut behind the part.
    fn is_before_cut(self) -> bool
        ensures cut { OnTrue result (lines_behind_part self ≡ cut_lines) }
        ensures none { OnFalse result (lines_behind_part self ≡ []) }
    {
        match self {
            Part::Round(round) => round % 4 == 3,
            Part::Head | Part::Cut => false,
        }
    }

    // The line at this place of the part.
    fn line(self, alloc: Global, place: usize) -> Result<Line, NoMemory>
        requires { place < length (part_lines self) }
        ensures { IfOk result (IsLineAt (part_lines self) place) }
    {
        match self {
            Part::Head => head_line(alloc, place),
            Part::Round(round) => round_line(alloc, round, place),
            Part::Cut => cut_line(alloc, place),
        }
    }
}

fn head_line(alloc: Global, place: usize) -> Result<Line, NoMemory>
    requires { place < 8 }
    ensures { IfOk result (IsLineAt head_lines place) }
{
    match place {
        0 => Ok(Line::Do(Step::Boot)),
        1 => Ok(Line::Do(Step::Open(session_one()))),
        2 => Ok(Line::Do(Step::Open(session_two()))),
        3 => Ok(Line::Do(Step::Listen(session_one(), classes(true)))),
        4 => Ok(Line::Do(Step::Listen(session_two(), classes(false)))),
        5 => import_check_key(alloc),
        6 => import_mac_key(alloc, Verify::Zero),
        _ => Ok(Line::Auto),
    }
}

fn round_line(alloc: Global, round: u16, place: usize) -> Result<Line, NoMemory>
    requires { place < 10 }
    ensures { IfOk result (IsLineAt (round_lines round) place) }
{
    let round = u32::from(round);
    match place {
        0 => Ok(submit(session_one(), enter_pin())),
        1 => Ok(Line::Auto),
        2 => Ok(press(round)),
        3 => Ok(press(round + 3)),
        4 => Ok(press(round + 6)),
        5 => Ok(press(round + 9)),
        6 => Ok(submit(session_one(), check_pin())),
        7 => Ok(Line::Auto),
        8 => Ok(submit(session_two(), make_mac(alloc)?)),
        _ => Ok(Line::Auto),
    }
}

fn cut_line(alloc: Global, place: usize) -> Result<Line, NoMemory>
    requires { place < 4 }
    ensures { IfOk result (IsLineAt cut_lines place) }
{
    match place {
        0 => Ok(Line::Arm(3, Strike::Cut(Keep::Fill(0x77)))),
        1 => import_mac_key(alloc, Verify::Nothing),
        2 => Ok(Line::Auto),
        _ => Ok(Line::Do(Step::Boot)),
    }
}

// A session hears the events of service, and those of execution where it is told so.
fn classes(execute: bool) -> Classes
    ensures { result ≡ record { service = true; execute = execute } }
{
    Classes {
        service: true,
        execute,
    }
}

fn press(number: u32) -> Line
    ensures { result ≡ press number }
{
    match Digit::new((number % 10) as u8) {
        Some(digit) => Line::Do(Step::Press(Key::Digit(digit))),
        None => unreachable!(),
    }
}

fn submit(session: Session, command: Command) -> Line
    ensures { result ≡ submit session command }
{
    Line::Do(Step::Submit(session, 0, command))
}

fn import_check_key(alloc: Global) -> Result<Line, NoMemory>
    ensures { IfOk result (λ line. line ≡ submit session_one import_check_key) }
{
    let import = import_clear(alloc, key_name(b"P"), &[0; 8], 0x0002, Verify::Zero)?;
    Ok(submit(session_one(), import))
}

fn import_mac_key(alloc: Global, mode: Verify) -> Result<Line, NoMemory>
    ensures { IfOk result (λ line. line ≡ submit session_two (import_mac_key mode)) }
{
    let key = [0x01, 0x23, 0x45, 0x67, 0x89, 0xAB, 0xCD, 0xEF];
    let import = import_clear(alloc, key_name(b"M"), &key, 0x0004, mode)?;
    Ok(submit(session_two(), import))
}

fn import_clear(
    alloc: Global,
    name: KeyName,
    value: &[u8],
    uses: u16,
    verify: Verify,
) -> Result<Command, NoMemory>
    ensures { IfOk result (λ command. command ≡ import_clear name value.now uses verify) }
{
    Ok(Command::ImportKey(ImportRequest {
        name,
        source: ImportSource::Clear(Octets::copy(alloc, value)?),
        uses,
        verify,
    }))
}

fn enter_pin() -> Command
    ensures { result ≡ enter_pin }
{
    Command::GetPin(EntryRules {
        min: 4,
        max: 4,
        auto_end: true,
        active: Mask {
            keys: 0x0003_03FF,
            fdks: 0,
        },
        terminate: Mask {
            keys: 0x0003_0000,
            fdks: 0,
        },
    })
}

fn check_pin() -> Command
    ensures { result ≡ check_pin }
{
    Command::Pin(PinRequest::Check(CheckRequest {
        key: key_name(b"P"),
        validation: nibbles(&[0; 16]),
        pad: 0,
        offset: nibbles(&[2, 1, 6, 3]),
        count: 4,
        no_zero: false,
        table: nibbles(&[0, 1, 2, 3, 4, 5, 6, 7, 8, 9, 0, 1, 2, 3, 4, 5]),
    }))
}

fn make_mac(alloc: Global) -> Result<Command, NoMemory>
    ensures { IfOk result (λ command. command ≡ make_mac) }
{
    Ok(Command::Crypt(CryptRequest {
        algorithm: Algorithm::Mac,
        direction: Direction::Encrypt,
        key: key_name(b"M"),
        start: Start::Zero,
        pad: 0x00,
        body: Octets::copy(alloc, b"Now is t")?,
    }))
}

fn session_one() -> Session
    ensures { result ≡ session_one }
{
    match Session::new(1) {
        Some(session) => session,
        None => unreachable!(),
    }
}

fn session_two() -> Session
    ensures { result ≡ session_two }
{
    match Session::new(2) {
        Some(session) => session,
        None => unreachable!(),
    }
}

// The name of a key, of a text that is one.
fn key_name(text: &[u8]) -> KeyName
    requires { IsTrue (is_key_name text.now) }
    ensures { result ≡ text.now }
{
    match KeyName::read(text) {
        Some(name) => name,
        None => unreachable!(),
    }
}

// At most 48 half bytes.
fn nibbles(values: &[u8]) -> Nibbles
    requires few { length values.now ≤ 48 }
    requires small { All (λ value. value < 16) values.now }
    ensures { result ≡ values.now }
{
    let mut nibbles = Nibbles::empty();
    for value in values {
        nibbles.push(*value);
    }
    nibbles
}
