//! A lane script read whole.
ghost use Rattle.std.specs.Prelude.{◌≡◌, ◌≢◌, ◌≤◌, ◌+◌, ℕ, Err, IfOk, IfSome, None, OnOk, Some, length, []};
ghost use Rattle.disk_core.specs.Causes.{Rose};
ghost use Rattle.lane_scripts.specs.LaneScripts.{lane_script_of, lanes_of};
ghost use Rattle.lane_scripts.specs.NextLines.{AreFormed, GoesOn, IsBadNext, IsNext};
ghost use Rattle.script_lang.specs.LaneReading.{lane_line_of};
ghost use Rattle.script_lang.specs.LaneSpelling.{HasFormedStep, HasLane};
ghost use Rattle.script_lang.specs.Lines.{still};

use crate::lanes::Lanes;
use disk_core::Source;
use pad_words::NoMemory;
use script_lang::{
    LaneLine, LineFault, LineReader, Taken, read_lane_line, scripts_are_read_line_by_line,
    texts_end_once,
};
use std::alloc::Global;

/// Why a lane script was not read.
#[derive(Clone, Copy, Debug, PartialEq, Eq)]
pub enum ScriptFault {
    /// The line with this number, counted from 1, is the first that is outside the grammar, is too long, has no line
    /// feed or stands behind 65,536 others.
    BadLine(u32),
    /// The source failed.
    Failed,
    /// Memory was wanting.
    NoMemory,
}

impl From<NoMemory> for ScriptFault {
    ghost use Rattle.lane_scripts.specs.declared.reading.ScriptFault.TheVariants as fault;

    ghost from_gives = { λ _ gives. gives ≡ fault.NoMemory };

    fn from(_: NoMemory) -> ScriptFault {
        ScriptFault::NoMemory
    }
}

/// Reads a lane script to the end of its source, and gives its sixteen lanes. A bad line or a call of the source that
/// fails ends it, and then there are no lanes.
///
/// It keeps all steps, and beside them one line and one piece of the source, of 4,096 bytes each. Its time is in
/// proportion to the bytes of the script.
pub fn read_lanes<S: Source>(alloc: Global, source: &mut S) -> Result<Lanes, ScriptFault>
    // No line is bad, the lanes are those of the lines, and the source was read to its end.
    ensures whole { IfOk result (λ _. IfSome (S.left source.old) (λ script. (lane_script_of script).bad ≡ None)) }
    ensures lanes { IfOk result (λ lanes. IfSome (S.left source.old) (λ script.
        lanes ≡ lanes_of (lane_script_of script).lines)) }
    ensures read { OnOk result (IfSome (S.left source.old) (λ _. S.left source.new ≡ Some [])) }

    // There are sixteen, and each step of a script in them is well formed.
    ensures sixteen { IfOk result (λ lanes. length lanes ≡ 16) }
    ensures formed { IfOk result (λ lanes. AreFormed lanes) }

    // The number is that of the first bad line.
    ensures bad_line { (n : ℕ) → result ≡ Err (ScriptFault.BadLine n) →
        IfSome (S.left source.old) (λ script. (lane_script_of script).bad ≡ Some n) }

    // Failed only where the source failed.
    ensures cause { result ≡ Err ScriptFault.Failed → Rose (S.faults source.old) (S.faults source.new) }
{
    texts_end_once();
    let mut reader = LineReader::new(alloc)?;
    let mut lanes = Lanes::empty(alloc)?;
    let mut count = 0;
    while let Some(line) = next_line(alloc, count + 1, &mut reader, source)? {
        lanes.add_line(line)?;
        count += 1;
    }
    Ok(lanes)
}

// Reads the line with this number, counted from 1. There is none where the source is at its end.
fn next_line<S: Source>(
    alloc: Global,
    number: u32,
    reader: &mut LineReader,
    source: &mut S,
) -> Result<Option<LaneLine>, ScriptFault>
    requires few { length reader.old.kept ≤ 4096 }
    requires number { number ≡ reader.old.lines + 1 }
    ensures next { IfOk result (λ next. IfSome (still reader.old.kept (S.left source.old)) (λ text.
        IsNext reader.old.lines text (still reader.new.kept (S.left source.new)) next)) }
    ensures goes_on { IfOk result (λ next. IfSome next (GoesOn reader.old reader.new)) }
    ensures bad_line { (n : ℕ) → result ≡ Err (ScriptFault.BadLine n) →
        IfSome (still reader.old.kept (S.left source.old)) (λ text.
        (n ≡ reader.old.lines + 1) × IsBadNext reader.old.lines text) }
    ensures cause { result ≡ Err ScriptFault.Failed → Rose (S.faults source.old) (S.faults source.new) }
    ensures later { S.faults source.old ≤ S.faults source.new }
{
    scripts_are_read_line_by_line::<LaneLine>();
    texts_end_once();
    match reader.next(source) {
        Ok(Taken::Line(text)) => match numbered_line(alloc, number, text) {
            Ok(line) => Ok(Some(line)),
            Err(fault) => Err(fault),
        },
        Ok(Taken::End) => Ok(None),
        Ok(Taken::Bad) => Err(ScriptFault::BadLine(number)),
        Err(_) => Err(ScriptFault::Failed),
    }
}

// The line that these bytes spell, where it has this number.
fn numbered_line(alloc: Global, number: u32, text: &[u8]) -> Result<LaneLine, ScriptFault>
    ensures line { IfOk result (λ line. lane_line_of text.now ≡ Some line) }
    ensures lane { IfOk result (λ line. HasLane line) }
    ensures formed { IfOk result (λ line. HasFormedStep line) }
    ensures bad_line { (n : ℕ) → result ≡ Err (ScriptFault.BadLine n) →
        (n ≡ number) × (lane_line_of text.now ≡ None) }
    ensures unread { result ≢ Err ScriptFault.Failed }
{
    match read_lane_line(alloc, text) {
        Ok(line) => Ok(line),
        Err(LineFault::Outside) => Err(ScriptFault::BadLine(number)),
        Err(LineFault::NoMemory) => Err(ScriptFault::NoMemory),
    }
}
