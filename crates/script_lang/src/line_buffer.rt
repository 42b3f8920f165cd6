//! The bytes of a source, piece by piece, until a line is whole.
ghost use Rattle.std.specs.Prelude.{◌≡◌, ◌≤◌, ◌<◌, ◌⊎◌, ◌-◌, length, take, slice_range, true, false};
ghost use Rattle.script_lang.specs.Lines.{IsOpen, feed_at};

use disk_core::{Failed, Source};
use pad_words::NoMemory;
use std::alloc::Global;
use std::marker::Model;

/// The most bytes of a line, without its line feed.
const LONGEST_LINE: usize = 4096;

/// The most bytes that are taken by one call.
const PIECE: usize = 4096;

/// A line and a piece.
const ROOM: usize = LONGEST_LINE + PIECE;

/// The most lines of a source.
const MOST_LINES: u32 = 65_536;

/// What stands in front of the bytes: a line of so many, and of so many with its feed, the end, or
/// no line that is allowed.
#[derive(Clone, Copy, Debug, PartialEq, Eq)]
pub(crate) enum Found {
    Line(usize, usize),
    End,
    Bad,
}

/// The bytes from `start` to `end` of a vector that keeps its length.
#[derive(Drop)]
pub(crate) struct LineBuffer {
    bytes: Vec<u8>,
    start: usize,
    end: usize,
}

impl Model for LineBuffer {
    ghost use Rattle.std.specs.Prelude.{ℕ, List, slice_range, length, ◌≤◌, ◌≡◌};

    ghost Value = { List ℕ };

    ghost view = { λ b. slice_range b.bytes.items b.start b.end };

    ghost invariant = { λ b. (b.start ≤ b.end) × (b.end ≤ 8192) × (length b.bytes.items ≡ 8192) };
}

// how many bytes stand before the first line feed
fn feed_place(bytes: &[u8]) -> usize
    ensures exact { result ≡ feed_at bytes.now }
    ensures within { result ≤ length bytes.now }
{
    for (place, byte) in bytes.iter().enumerate() {
        if *byte == b'\n' {
            return place;
        }
    }
    bytes.len()
}

// whether a feed behind so many of the bytes ends a line that is allowed behind so many others
fn is_line(feed: usize, bytes: usize, lines: u32) -> bool
    ensures allowed { result ≡ true → (feed < bytes) × (feed ≤ 4096) × (lines < 65536) }
    ensures refused { result ≡ false → (65536 ≤ lines) ⊎ ((bytes ≤ feed) ⊎ (4096 < feed)) }
{
    feed < bytes && feed <= LONGEST_LINE && lines < MOST_LINES
}

// moves the bytes from `start` to `end` to the front
fn move_to_front(bytes: &mut Vec<u8>, start: usize, end: usize)
    requires ordered { start ≤ end }
    requires within { end ≤ length bytes.old.items }
    ensures front { take (end - start) bytes.new.items ≡ slice_range bytes.old.items start end }
    ensures same_len { length bytes.new.items ≡ length bytes.old.items }
{
    bytes.copy_within(start..end, 0);
}

impl LineBuffer {
    ghost use Rattle.std.specs.Prelude.{◌≡◌, ◌<◌, ◌≤◌, ◌+◌, [], length, drop, true, false};
    ghost use Rattle.std.specs.Prelude.{Ok, IfOk, OnOk, OnErr};
    ghost use Rattle.disk_core.specs.Causes.{HasCause};
    ghost use Rattle.script_lang.specs.Lines.{IsOpen, Stays, feed_at, still};
    ghost use Rattle.script_lang.specs.Gathering.{Grows, IsFound, IsOver, IsWhole, Stops};

    /// No bytes, and room for a line and a piece.
    pub(crate) fn new(alloc: Global) -> Result<LineBuffer, NoMemory>
        ensures { IfOk result (λ b. b ≡ []) }
    {
        match vec![in alloc; 0; ROOM] {
            Ok(bytes) => Ok(LineBuffer {
                bytes,
                start: 0,
                end: 0,
            }),
            Err(_) => Err(NoMemory),
        }
    }

    /// The bytes.
    pub(crate) fn items(&self) -> &[u8]
        ensures { result.now ≡ self.now }
    {
        &self.bytes[self.start..self.end]
    }

    /// Forgets the first bytes.
    pub(crate) fn skip(&mut self, count: usize)
        requires { count ≤ length self.old }
        ensures { self.new ≡ drop count self.old }
    {
        self.start += count;
    }

    // Takes one piece behind the bytes. False at the end of the source.
    fn take_piece<S: Source>(&mut self, source: &mut S) -> Result<bool, Failed>
        requires few { length self.old ≤ 4096 }
        ensures grows { OnOk result (Grows (S.left source.old) (S.left source.new) self.old self.new) }
        ensures more { result ≡ Ok true → length self.old < length self.new }
        ensures end { result ≡ Ok false → (self.new ≡ self.old) × IsOver (S.left source.old) }
        ensures failed { OnErr result (self.new ≡ self.old) }
        ensures left { OnErr result (S.left source.new ≡ S.left source.old) }
        ensures cause { HasCause (S.faults source.old) (S.faults source.new) result }
    {
        move_to_front(&mut self.bytes, self.start, self.end);
        let kept = self.end - self.start;
        self.start = 0;
        self.end = kept;
        match source.take(&mut self.bytes[kept..kept + PIECE]) {
            Ok(0) => Ok(false),
            Ok(count) => {
                self.end = kept + count;
                Ok(true)
            }
            Err(Failed) => Err(Failed),
        }
    }

    // whether no feed is here and the bytes may be the front of a line
    fn is_open(&self) -> bool
        ensures open_front { result ≡ true → IsOpen self.now }
        ensures whole { result ≡ false → IsWhole self.now }
    {
        let bytes = self.items();
        bytes.len() <= LONGEST_LINE && feed_place(bytes) == bytes.len()
    }

    // Takes pieces until a line feed is here, or more bytes than a line has, or the source ends.
    fn gather<S: Source>(&mut self, source: &mut S) -> Result<(), Failed>
        requires few { length self.old ≤ 4096 }
        ensures text { Stays (still self.old (S.left source.old)) (still self.new (S.left source.new)) }
        ensures stops { OnOk result (Stops (still self.old (S.left source.old)) self.new) }
        ensures behind { length self.new ≤ feed_at self.new + 4096 }
        ensures open_still { OnErr result (IsOpen self.new) }
        ensures cause { HasCause (S.faults source.old) (S.faults source.new) result }
        ensures lazy { feed_at self.old < length self.old
            → (self.new ≡ self.old) × (source.new ≡ source.old) }
    {
        while self.is_open() {
            match self.take_piece(source) {
                Ok(true) => {}
                Ok(false) => return Ok(()),
                Err(Failed) => return Err(Failed),
            }
        }
        Ok(())
    }

    /// Takes pieces until it is plain what is next behind so many lines.
    pub(crate) fn find<S: Source>(&mut self, lines: u32, source: &mut S) -> Result<Found, Failed>
        requires few { length self.old ≤ 4096 }
        ensures text { Stays (still self.old (S.left source.old)) (still self.new (S.left source.new)) }
        ensures found { IfOk result (IsFound lines (still self.old (S.left source.old)) self.new) }
        ensures open_still { OnErr result (IsOpen self.new) }
        ensures cause { HasCause (S.faults source.old) (S.faults source.new) result }
        ensures lazy { feed_at self.old < length self.old
            → (self.new ≡ self.old) × (source.new ≡ source.old) }
    {
        match self.gather(source) {
            Ok(()) => {}
            Err(Failed) => return Err(Failed),
        }
        let bytes = self.items();
        if bytes.is_empty() {
            return Ok(Found::End);
        }
        let feed = feed_place(bytes);
        if !is_line(feed, bytes.len(), lines) {
            return Ok(Found::Bad);
        }
        Ok(Found::Line(feed, feed + 1))
    }
}
