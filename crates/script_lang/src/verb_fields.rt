//! Tables of first words, and what they read and write.
ghost use Rattle.std.specs.Prelude.{◌≡◌};
ghost use Rattle.script_lang.specs.Reading.{read_command_verb, read_keep_verb, read_line_verb, read_question_verb, read_source_kind};
ghost use Rattle.script_lang.specs.Words.{command_verb_text, keep_verb_text, line_verb_text, question_verb_text, source_kind_text};

use crate::kinds::{CommandVerb, KeepVerb, LineVerb, QuestionVerb, SourceKind};
use spelled_words::{Spelled, value_of, word_of};

// first words of lines
const LINE_VERBS: [Spelled<LineVerb>; 17] = [
    Spelled(LineVerb::Auto, "auto"),
    Spelled(LineVerb::Open, "open"),
    Spelled(LineVerb::Close, "close"),
    Spelled(LineVerb::Listen, "listen"),
    Spelled(LineVerb::Lock, "lock"),
    Spelled(LineVerb::Unlock, "unlock"),
    Spelled(LineVerb::Submit, "submit"),
    Spelled(LineVerb::Cancel, "cancel"),
    Spelled(LineVerb::Begin, "begin"),
    Spelled(LineVerb::Finish, "finish"),
    Spelled(LineVerb::Press, "press"),
    Spelled(LineVerb::Tick, "tick"),
    Spelled(LineVerb::Ask, "ask"),
    Spelled(LineVerb::Off, "off"),
    Spelled(LineVerb::Boot, "boot"),
    Spelled(LineVerb::Cut, "cut"),
    Spelled(LineVerb::Fail, "fail"),
];

// the line's verb that this word spells
#[tactic(auto, unfolding(crate::specs::Reading::read_line_verb))]
pub fn read_line_verb(word: &[u8]) -> Option<LineVerb>
    ensures { result ≡ read_line_verb word.now }
{
    value_of(&LINE_VERBS, word)
}

// the word of a line's verb
#[tactic(auto, unfolding(crate::specs::Words::line_verb_text))]
pub fn line_verb_word(verb: LineVerb) -> &'static str
    ensures { result.now ≡ line_verb_text verb }
{
    word_of(&LINE_VERBS, verb)
}

// first words of commands
const COMMAND_VERBS: [Spelled<CommandVerb>; 13] = [
    Spelled(CommandVerb::GetPin, "getpin"),
    Spelled(CommandVerb::GetData, "getdata"),
    Spelled(CommandVerb::KeyEntry, "keyentry"),
    Spelled(CommandVerb::Maintain, "maintain"),
    Spelled(CommandVerb::PinBlock, "pinblock"),
    Spelled(CommandVerb::Import, "import"),
    Spelled(CommandVerb::Delete, "delete"),
    Spelled(CommandVerb::Init, "init"),
    Spelled(CommandVerb::Reset, "reset"),
    Spelled(CommandVerb::Rsa, "rsa"),
    Spelled(CommandVerb::Crypt, "crypt"),
    Spelled(CommandVerb::LocalDes, "localdes"),
    Spelled(CommandVerb::Extra, "extra"),
];

// the command's verb that this word spells
#[tactic(auto, unfolding(crate::specs::Reading::read_command_verb))]
pub fn read_command_verb(word: &[u8]) -> Option<CommandVerb>
    ensures { result ≡ read_command_verb word.now }
{
    value_of(&COMMAND_VERBS, word)
}

// the word of a command's verb
#[tactic(auto, unfolding(crate::specs::Words::command_verb_text))]
pub fn command_verb_word(verb: CommandVerb) -> &'static str
    ensures { result.now ≡ command_verb_text verb }
{
    word_of(&COMMAND_VERBS, verb)
}

// first words of questions
const QUESTION_VERBS: [Spelled<QuestionVerb>; 4] = [
    Spelled(QuestionVerb::Status, "status"),
    Spelled(QuestionVerb::Key, "key"),
    Spelled(QuestionVerb::Names, "names"),
    Spelled(QuestionVerb::Reply, "reply"),
];

// the question's verb that this word spells
#[tactic(auto, unfolding(crate::specs::Reading::read_question_verb))]
pub fn read_question_verb(word: &[u8]) -> Option<QuestionVerb>
    ensures { result ≡ read_question_verb word.now }
{
    value_of(&QUESTION_VERBS, word)
}

// the word of a question's verb
#[tactic(auto, unfolding(crate::specs::Words::question_verb_text))]
pub fn question_verb_word(verb: QuestionVerb) -> &'static str
    ensures { result.now ≡ question_verb_text verb }
{
    word_of(&QUESTION_VERBS, verb)
}

// first words of what a power cut makes of bytes
const KEEP_VERBS: [Spelled<KeepVerb>; 3] = [
    Spelled(KeepVerb::Old, "old"),
    Spelled(KeepVerb::New, "new"),
    Spelled(KeepVerb::Fill, "fill"),
];

// what a power cut makes of bytes, by its first word
#[tactic(auto, unfolding(crate::specs::Reading::read_keep_verb))]
pub fn read_keep_verb(word: &[u8]) -> Option<KeepVerb>
    ensures { result ≡ read_keep_verb word.now }
{
    value_of(&KEEP_VERBS, word)
}

// first words of the sources of imports
const SOURCE_KINDS: [Spelled<SourceKind>; 3] = [
    Spelled(SourceKind::Clear, "clear"),
    Spelled(SourceKind::Sealed, "sealed"),
    Spelled(SourceKind::Part, "part"),
];

// the kind of source that this word spells
#[tactic(auto, unfolding(crate::specs::Reading::read_source_kind))]
pub fn read_source_kind(word: &[u8]) -> Option<SourceKind>
    ensures { result ≡ read_source_kind word.now }
{
    value_of(&SOURCE_KINDS, word)
}

// the word of a kind of source
#[tactic(auto, unfolding(crate::specs::Words::source_kind_text))]
pub fn source_kind_word(kind: SourceKind) -> &'static str
    ensures { result.now ≡ source_kind_text kind }
{
    word_of(&SOURCE_KINDS, kind)
}
