//! Lines of a source in pieces of any size, and of a source that fails.
ghost use Rattle.std.specs.Prelude.{◌<◌, ◌≤◌, length};
ghost use Rattle.script_lang.specs.Lines.{Reader};

use disk_core::{Calls, Failed, MemSource};
use pad_words::{NoMemory, Octets};
use script_lang::{Line, LineReader, Taken, scripts_are_read_line_by_line};
use std::alloc::Global;

/// What a call answers.
#[derive(Clone, Copy)]
enum Answer {
    Line(&'static [u8]),
    End,
    Bad,
    Failed,
}

/// A text, the calls that fail, and what is answered then. The last is the end or a bad line.
type Case = (&'static [u8], &'static [u32], &'static [Answer]);

// whatever the size of the pieces
const TEXTS: &[Case] = &[
    (b"", &[], &[Answer::End]),
    (b"\n", &[], &[Answer::Line(b""), Answer::End]),
    (
        b"open 1\n\n# a\npress 7\n",
        &[],
        &[
            Answer::Line(b"open 1"),
            Answer::Line(b""),
            Answer::Line(b"# a"),
            Answer::Line(b"press 7"),
            Answer::End,
        ],
    ),
    (b"auto", &[], &[Answer::Bad]),
    (b"auto\nauto", &[], &[Answer::Line(b"auto"), Answer::Bad]),
    (
        b"\r\n\0\n",
        &[],
        &[Answer::Line(b"\r"), Answer::Line(b"\0"), Answer::End],
    ),
    (
        b"ab\nc\n",
        &[1],
        &[
            Answer::Failed,
            Answer::Line(b"ab"),
            Answer::Line(b"c"),
            Answer::End,
        ],
    ),
];

// byte by byte
const BYTES: &[Case] = &[
    (
        b"ab\nc\n",
        &[2],
        &[
            Answer::Failed,
            Answer::Line(b"ab"),
            Answer::Line(b"c"),
            Answer::End,
        ],
    ),
    (
        b"ab\nc\n",
        &[2, 3, 5],
        &[
            Answer::Failed,
            Answer::Failed,
            Answer::Failed,
            Answer::Line(b"ab"),
            Answer::Line(b"c"),
            Answer::End,
        ],
    ),
    (
        b"ab\nc\n",
        &[4],
        &[
            Answer::Line(b"ab"),
            Answer::Failed,
            Answer::Line(b"c"),
            Answer::End,
        ],
    ),
    (
        b"ab\nc\n",
        &[6],
        &[
            Answer::Line(b"ab"),
            Answer::Line(b"c"),
            Answer::Failed,
            Answer::End,
        ],
    ),
    (
        b"ab\nc",
        &[5],
        &[Answer::Line(b"ab"), Answer::Failed, Answer::Bad],
    ),
];

// a source of these bytes in pieces of this size
fn source(bytes: Octets, piece: usize, fails: &[u32]) -> Option<MemSource>
    requires { 0 < piece }
{
    let fails = Calls::of(fails)?;
    Some(MemSource::new(bytes, piece, fails))
}

// whether this line is the answer
fn is_line(wanted: &Answer, line: &[u8]) -> bool {
    match wanted {
        Answer::Line(bytes) => *bytes == line,
        _ => false,
    }
}

// whether the calls are answered so
fn are_answered(reader: &mut LineReader, source: &mut MemSource, answers: &[Answer]) -> bool
    requires { length reader.old.kept ≤ 4096 }
{
    for wanted in answers {
        match reader.next(source) {
            Ok(Taken::Line(line)) => {
                if !is_line(wanted, line) {
                    return false;
                }
            }
            Ok(Taken::End) => return matches!(wanted, Answer::End),
            Ok(Taken::Bad) => return matches!(wanted, Answer::Bad),
            Err(Failed) => {
                if !matches!(wanted, Answer::Failed) {
                    return false;
                }
            }
        }
    }
    false
}

// whether the calls of a case are answered so
fn is_answered(alloc: Global, case: &Case, piece: usize) -> Result<bool, NoMemory>
    requires { 0 < piece }
{
    let bytes = Octets::copy(alloc, case.0)?;
    let mut reader = LineReader::new(alloc)?;
    match source(bytes, piece, case.1) {
        Some(mut source) => Ok(are_answered(&mut reader, &mut source, case.2)),
        None => Ok(false),
    }
}

// the place of the first case that is answered otherwise
fn wrong_case(alloc: Global, cases: &[Case], piece: usize) -> Result<Option<usize>, NoMemory>
    requires { 0 < piece }
{
    for place in 0..cases.len() {
        if !is_answered(alloc, &cases[place], piece)? {
            return Ok(Some(place));
        }
    }
    Ok(None)
}

#[test]
fn lines_in_any_pieces(rt: HostRuntime) {
    scripts_are_read_line_by_line::<Line>();
    assert_eq!(rt; wrong_case(rt.alloc(), TEXTS, 1), Ok(None));
    assert_eq!(rt; wrong_case(rt.alloc(), TEXTS, 2), Ok(None));
    assert_eq!(rt; wrong_case(rt.alloc(), TEXTS, 7), Ok(None));
    assert_eq!(rt; wrong_case(rt.alloc(), TEXTS, 4096), Ok(None));
}

#[test]
fn failed_calls_lose_nothing(rt: HostRuntime) {
    assert_eq!(rt; wrong_case(rt.alloc(), BYTES, 1), Ok(None));
}

// how many lines come, and whether a bad one ends them; none where the source fails or there are more
fn count_lines(reader: &mut LineReader, source: &mut MemSource, most: u32) -> Option<(u32, bool)>
    requires { length reader.old.kept ≤ 4096 }
{
    for count in 0..=most {
        match reader.next(source) {
            Ok(Taken::Line(_)) => {}
            Ok(Taken::End) => return Some((count, false)),
            Ok(Taken::Bad) => return Some((count, true)),
            Err(Failed) => return None,
        }
    }
    None
}

// the same for so many bytes of one value and then a line feed
fn count_of(alloc: Global, byte: u8, count: usize, piece: usize) -> Option<(u32, bool)>
    requires { 0 < piece }
{
    let mut bytes = match vec![in alloc; byte; count] {
        Ok(bytes) => Octets::of(bytes),
        Err(_) => return None,
    };
    bytes.push(b'\n').ok()?;
    let mut reader = LineReader::new(alloc).ok()?;
    count_lines(&mut reader, &mut source(bytes, piece, &[])?, 70_000)
}

#[test]
fn lines_have_at_most_4096_bytes(rt: HostRuntime) {
    assert_eq!(rt; count_of(rt.alloc(), b'x', 4096, 4096), Some((1, false)));
    assert_eq!(rt; count_of(rt.alloc(), b'x', 4096, 7), Some((1, false)));
    assert_eq!(rt; count_of(rt.alloc(), b'x', 4097, 4096), Some((0, true)));
    assert_eq!(rt; count_of(rt.alloc(), b'x', 4097, 7), Some((0, true)));
}

#[test]
fn sources_have_at_most_65536_lines(rt: HostRuntime) {
    assert_eq!(rt;
        count_of(rt.alloc(), b'\n', 65_535, 4096),
        Some((65_536, false))
    );
    assert_eq!(rt;
        count_of(rt.alloc(), b'\n', 65_536, 4096),
        Some((65_536, true))
    );
}
