// The next line of a script.
ghost use Rattle.std.specs.Prelude.{◌≡◌, ◌≤◌, Err, IfOk, IfSome, length};
ghost use Rattle.disk_core.specs.Causes.{Rose};
ghost use Rattle.pad_replay.specs.NextLines.{GoesOnBehind, IsNext};
ghost use Rattle.script_lang.specs.Lines.{IsOpen, LeavesAll, still};

use disk_core::Source;
use script_lang::{
    Line, LineFault, LineReader, Taken, read_line, scripts_are_read_line_by_line, texts_end_once,
};
use std::alloc::Global;

/// What comes next of a script.
#[derive(Drop)]
pub enum Next {
    /// A line of the grammar.
    Line(Line),
    /// The source is at its end, behind whole lines.
    End,
    /// A line outside the grammar.
    BadLine,
}

/// Why a line was not read.
#[derive(Clone, Copy, Debug, PartialEq, Eq)]
pub enum ReadFault {
    /// The source failed.
    Failed,
    /// Memory was wanting.
    NoMemory,
}

/// Reads the next line of a script.
pub fn next_line<S: Source>(
    alloc: Global,
    reader: &mut LineReader,
    source: &mut S,
) -> Result<Next, ReadFault>
    requires few { length reader.old.kept ≤ 4096 }
    ensures next { IfOk result (λ next. IfSome (still reader.old.kept (S.left source.old)) (λ text.
        IsNext reader.old.lines text (still reader.new.kept (S.left source.new)) next)) }
    ensures goes_on { IfOk result (GoesOnBehind reader.old reader.new) }
    ensures unread { result ≡ Err ReadFault.Failed → IsOpen reader.new.kept ×
        LeavesAll (still reader.old.kept (S.left source.old)) (still reader.new.kept (S.left source.new)) reader.old reader.new }
    ensures cause { result ≡ Err ReadFault.Failed → Rose (S.faults source.old) (S.faults source.new) }
    ensures later { S.faults source.old ≤ S.faults source.new }
{
    scripts_are_read_line_by_line::<Line>();
    texts_end_once();
    match reader.next(source) {
        Ok(Taken::Line(text)) => match read_line(alloc, text) {
            Ok(line) => Ok(Next::Line(line)),
            Err(LineFault::Outside) => Ok(Next::BadLine),
            Err(LineFault::NoMemory) => Err(ReadFault::NoMemory),
        },
        Ok(Taken::End) => Ok(Next::End),
        Ok(Taken::Bad) => Ok(Next::BadLine),
        Err(_) => Err(ReadFault::Failed),
    }
}
