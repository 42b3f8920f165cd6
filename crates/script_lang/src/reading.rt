//! Lines read from left to right, word by word.
ghost use Rattle.std.specs.Prelude.{◌≡◌, IfOk, Err};
ghost use Rattle.script_lang.specs.Reading.{line_after, line_of, Gives};
ghost use Rattle.script_lang.specs.Spelling.{is_blank, is_keep, is_spelled, is_strike, Spells};
ghost use Rattle.script_lang.specs.declared.kinds.Line.{Line};
ghost use Rattle.script_lang.specs.declared.kinds.LineFault.TheVariants.{NoMemory, Outside};
ghost use Rattle.script_lang.specs.Memory.{WantsMemory};

use crate::commands::{at_end, present};
use crate::cutting::word_len;
use crate::kinds::{Line, LineFault, LineVerb};
use crate::line_rows::{
    LAST_CALL, read_ask, read_cancel, read_cut, read_fail, read_listen, read_only_session,
    read_press, read_submit, read_tick,
};
use crate::verb_fields::read_line_verb;
use disk_core::{Keep, Strike};
use pad_steps::Step;
use std::alloc::Global;

/// The most bytes of a line, without its line feed.
const LONGEST_LINE: usize = 4096;

// the line that begins with this verb
fn read_row(alloc: Global, verb: LineVerb, rest: &[u8]) -> Result<Line, LineFault>
    ensures given { Gives result (line_after verb rest.now) }
    ensures memory { result ≡ Err NoMemory → WantsMemory (line_after verb rest.now) }
{
    match verb {
        LineVerb::Auto => at_end(rest, Line::Auto),
        LineVerb::Open => Ok(Line::Do(Step::Open(present(read_only_session(rest))?))),
        LineVerb::Close => Ok(Line::Do(Step::Close(present(read_only_session(rest))?))),
        LineVerb::Listen => present(read_listen(rest)),
        LineVerb::Lock => Ok(Line::Do(Step::Lock(present(read_only_session(rest))?))),
        LineVerb::Unlock => Ok(Line::Do(Step::Unlock(present(read_only_session(rest))?))),
        LineVerb::Submit => read_submit(alloc, rest),
        LineVerb::Cancel => present(read_cancel(rest)),
        LineVerb::Begin => at_end(rest, Line::Do(Step::Begin)),
        LineVerb::Finish => at_end(rest, Line::Do(Step::Finish)),
        LineVerb::Press => present(read_press(rest)),
        LineVerb::Tick => present(read_tick(rest)),
        LineVerb::Ask => present(read_ask(rest)),
        LineVerb::Off => at_end(rest, Line::Do(Step::Off)),
        LineVerb::Boot => at_end(rest, Line::Do(Step::Boot)),
        LineVerb::Cut => present(read_cut(rest)),
        LineVerb::Fail => present(read_fail(rest)),
    }
}

// whether the line is empty or a comment
pub fn is_blank(bytes: &[u8]) -> bool
    ensures { result ≡ is_blank bytes.now }
{
    match bytes {
        [] => true,
        [first, rest @ ..] => *first == b'#' && rest.len() < LONGEST_LINE,
    }
}

// whether the byte that fills is one
fn is_keep(keep: &Keep) -> bool
    ensures { result ≡ is_keep keep.now }
{
    match keep {
        Keep::Old | Keep::New => true,
        Keep::Fill(byte) => u32::from(*byte) < 256,
    }
}

// whether a line spells this strike
fn is_strike(strike: &Strike) -> bool
    ensures { result ≡ is_strike strike.now }
{
    match strike {
        Strike::Fail => true,
        Strike::Cut(keep) => is_keep(keep),
    }
}

// whether the line is blank, `auto`, a step that a line of the script spells, or a call that a line can arm
fn is_spelled(line: &Line) -> bool
    ensures { result ≡ is_spelled line.now }
{
    match line {
        Line::Blank | Line::Auto => true,
        Line::Do(step) => step.is_well_formed(),
        Line::Arm(call, strike) => 1 <= *call && *call <= LAST_CALL && is_strike(strike),
    }
}

// the line that these bytes spell, if its step is one that lines spell
#[tactic(auto, unfolding(crate::specs::Reading::line_of))]
fn read_spelled(alloc: Global, bytes: &[u8]) -> Result<Line, LineFault>
    ensures given { Gives result (line_of bytes.now) }
    ensures memory { result ≡ Err NoMemory → WantsMemory (line_of bytes.now) }
{
    if is_blank(bytes) {
        return Ok(Line::Blank);
    }
    let (word, rest) = bytes.split_at(word_len(bytes));
    let verb = present(read_line_verb(word))?;
    let line = read_row(alloc, verb, rest)?;
    if is_spelled(&line) {
        Ok(line)
    } else {
        Err(LineFault::Outside)
    }
}

/// What a line says, its bytes without the line feed. `Outside` exactly where no line is spelled so,
/// and `NoMemory` for a line that holds bytes alone.
/// It takes time in proportion to the line's length, and memory for the bytes of an import, of a crypt command or of another PIN command alone.
pub fn read_line(alloc: Global, line: &[u8]) -> Result<Line, LineFault>
    ensures found { IfOk result (λ l. Spells line.now l) }
    ensures outside { result ≡ Err Outside → (l : Line) → Spells line.now l → ⊥ }
    ensures exact { Gives result (line_of line.now) }
    ensures memory { result ≡ Err NoMemory → WantsMemory (line_of line.now) }
{
    read_spelled(alloc, line)
}
