//! The lines of a source, one after the other.
use crate::line_buffer::{Found, LineBuffer};
use disk_core::{Failed, Source};
use pad_words::NoMemory;
use std::alloc::Global;
use std::marker::Model;

/// What is next of a source: a line without its feed, the end, or a line that is longer than
/// 4,096 bytes, not ended by a feed, or behind 65,536 others.
#[derive(Drop)]
pub enum Taken<'a> {
    Line(&'a [u8]),
    End,
    Bad,
}

/// The lines of a source, one after the other. It keeps one line and one piece, of 4,096 bytes each,
/// and takes all its memory when it is made.
#[derive(Drop)]
pub struct LineReader {
    buffer: LineBuffer,
    // the bytes of the last line and its feed, which stand in front until the next call
    used: usize,
    lines: u32,
}

impl Model for LineReader {
    ghost use Rattle.std.specs.Prelude.{drop, length, ◌≤◌};
    ghost use Rattle.script_lang.specs.Lines.{Reader};

    ghost Value = { Reader };

    ghost view = { λ r. record { kept = drop r.used r.buffer; lines = r.lines } };

    ghost invariant = { λ r. (r.used ≤ length r.buffer) × (r.lines ≤ 65536) };
}

impl LineReader {
    ghost use Rattle.std.specs.Prelude.{◌≡◌, ◌<◌, ◌≤◌, [], length, IfOk};
    ghost use Rattle.std.specs.Borrow.{sem};
    ghost use Rattle.std.specs.Io.BufRead.{Rests};
    ghost use Rattle.disk_core.specs.Causes.{HasCause};
    ghost use Rattle.script_lang.specs.Lines.{Leaves, Reader, ShortLine, ShowsNext, feed_at, still};
    ghost use Rattle.script_lang.specs.contracts.line_reader.LineReader.{the_row};

    /// Keeps nothing, and has cut no line.
    pub fn new(alloc: Global) -> Result<LineReader, NoMemory>
        ensures { IfOk result (λ reader. reader ≡ record { kept = []; lines = 0 }) }
    {
        match LineBuffer::new(alloc) {
            Ok(buffer) => Ok(LineReader {
                buffer,
                used: 0,
                lines: 0,
            }),
            Err(NoMemory) => Err(NoMemory),
        }
    }

    /// The next line of the bytes kept followed by those that the source has left, in whatever pieces
    /// they come. A call that fails loses nothing: the next one goes on where it stood.
    pub fn next<S: Source>(&mut self, source: &mut S) -> Result<Taken<'_>, Failed>
        // So it is after `new`, and after each line and each failure.
        requires few { length self.old.kept ≤ 4096 }

        // How the reader stands once the line is done with.
        ensures* after { sem 𝓛 (Rests the_row self.entry (λ new.
            Leaves (S.left source.old) (S.left source.new) result self.old new)) }

        // The first cut of what was still to be cut, exactly where the source tells it.
        ensures shows { ShowsNext self.old.lines (still self.old.kept (S.left source.old)) result }
        ensures short { IfOk result (ShortLine self.old.lines) }

        // Failed only where the source failed.
        ensures cause { HasCause (S.faults source.old) (S.faults source.new) result }

        // Nothing is taken where a line feed is kept.
        ensures lazy { feed_at self.old.kept < length self.old.kept → source.new ≡ source.old }
    {
        self.buffer.skip(self.used);
        self.used = 0;
        match self.buffer.find(self.lines, source) {
            Ok(Found::Line(size, used)) => {
                self.used = used;
                self.lines += 1;
                Ok(Taken::Line(&self.buffer.items()[..size]))
            }
            Ok(Found::End) => Ok(Taken::End),
            Ok(Found::Bad) => Ok(Taken::Bad),
            Err(Failed) => Err(Failed),
        }
    }
}
