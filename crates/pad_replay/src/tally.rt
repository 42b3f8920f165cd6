// What a run counts, and the line of its summary.
ghost use Rattle.std.specs.Prelude.{Option, [], count_by, ◌≡◌, ◌+◌, ◌++◌, ◌∷◌, if◌then◌else◌, OnOk};
ghost use Rattle.std.specs.Fmt.{decimal};
ghost use Rattle.flat_machine.specs.DiskSteps.{is_cut};
ghost use Rattle.pad_replay.specs.Tallies.{checks_out, is_request, is_answer, is_refusal, is_yes};
ghost use Rattle.pad_replay.specs.Kinds.{is_of};

use pad_steps::{Answer, DiskWord, Fate, Out, Outs, Reply, Step};
use pad_words::{NoMemory, Octets};
use script_lang::writing::{write_number, write_word};
use std::alloc::Global;

/// What a run counts. Each count stands still at 2^64 - 1.
#[derive(Clone, Copy, Debug, PartialEq, Eq)]
pub struct Tally {
    /// Steps.
    pub steps: u64,
    /// Requests that were taken.
    pub requests: u64,
    /// Requests that ended with an answer.
    pub answers: u64,
    /// Requests that were not taken, and those that ended without an answer.
    pub refusals: u64,
    /// Checks of a PIN that ended with yes.
    pub yes: u64,
    /// Steps in which the power was cut.
    pub cuts: u64,
}

// What is counted of the outs of a step.
#[derive(Clone, Copy, Debug, PartialEq, Eq)]
enum Kind {
    Request,
    Answer,
    Refusal,
    Yes,
}

impl Tally {
    ghost use Rattle.pad_replay.specs.Tallies.{no_counts, tally_after, tally_text};
    ghost use Rattle.transcript.specs.PrintedLines.{line_of_shown};

    /// The counts before a run.
    pub fn new() -> Tally
        ensures { result ≡ no_counts }
    {
        Tally {
            steps: 0,
            requests: 0,
            answers: 0,
            refusals: 0,
            yes: 0,
            cuts: 0,
        }
    }

    /// Counts a step, by its word and by what it said.
    pub fn count_step(&mut self, word: &DiskWord, outs: &Outs)
        ensures { (shown : Option Step) (fate : Option Fate) →
            self.new ≡ tally_after self.old (line_of_shown shown word.now fate outs.now.items ∷ []) }
    {
        let outs = outs.items();
        self.steps = self.steps.saturating_add(1);
        self.requests = self.requests.saturating_add(how_many(Kind::Request, outs));
        self.answers = self.answers.saturating_add(how_many(Kind::Answer, outs));
        self.refusals = self.refusals.saturating_add(how_many(Kind::Refusal, outs));
        self.yes = self.yes.saturating_add(how_many(Kind::Yes, outs));
        self.cuts = self.cuts.saturating_add(cuts_in(word));
    }

    /// Puts the line of the summary of a run of so many rounds behind a text.
    #[tactic(auto, unfolding(crate::specs::Tallies::tally_text))]
    pub fn put_summary(&self, alloc: Global, rounds: u32, text: &mut Octets) -> Result<(), NoMemory>
        ensures { OnOk result (text.new ≡ text.old ++ tally_text rounds self.now) }
    {
        write_word("rounds ", text)?;
        write_number(alloc, rounds, text)?;
        put_count(alloc, " steps ", self.steps, text)?;
        put_count(alloc, " requests ", self.requests, text)?;
        put_count(alloc, " ok ", self.answers, text)?;
        put_count(alloc, " refused ", self.refusals, text)?;
        put_count(alloc, " yes ", self.yes, text)?;
        put_count(alloc, " cuts ", self.cuts, text)?;
        write_word("\n", text)
    }
}

// Puts a name and a count behind a text.
fn put_count(alloc: Global, name: &str, count: u64, text: &mut Octets) -> Result<(), NoMemory>
    ensures { OnOk result (text.new ≡ text.old ++ name.now ++ decimal count) }
{
    write_word(name, text)?;
    match count.to_string(alloc) {
        Ok(digits) => write_word(digits.as_str(), text),
        Err(_) => Err(NoMemory),
    }
}

// How many of the outs are of this kind.
fn how_many(kind: Kind, outs: &[Out]) -> u64
    ensures { result ≡ count_by (is_of kind) outs.now }
{
    outs.iter().filter(|out| kind.is_of(out)).count() as u64
}

impl Kind {
    ghost use Rattle.pad_replay.specs.Kinds.{is_of};

    // The out is of this kind.
    fn is_of(self, out: &Out) -> bool
        ensures { result ≡ is_of self out.now }
    {
        match self {
            Kind::Request => is_request(out),
            Kind::Answer => is_answer(out),
            Kind::Refusal => is_refusal(out),
            Kind::Yes => is_yes(out),
        }
    }
}

fn is_request(out: &Out) -> bool
    ensures { result ≡ is_request out.now }
{
    matches!(out, Out::Request(_, _))
}

fn is_answer(out: &Out) -> bool
    ensures { result ≡ is_answer out.now }
{
    matches!(out, Out::Ended(_, _, Reply::Ok(_)))
}

fn is_refusal(out: &Out) -> bool
    ensures { result ≡ is_refusal out.now }
{
    matches!(out, Out::Refused(_, _) | Out::Ended(_, _, Reply::No(_)))
}

// The reply says that a PIN checks out.
fn checks_out(reply: &Reply) -> bool
    ensures { result ≡ checks_out reply.now }
{
    match reply {
        Reply::Ok(Answer::Checked(holds)) => *holds,
        _ => false,
    }
}

fn is_yes(out: &Out) -> bool
    ensures { result ≡ is_yes out.now }
{
    match out {
        Out::Ended(_, _, reply) => checks_out(reply),
        _ => false,
    }
}

// 1 where the power was cut in the step, and 0 else.
fn cuts_in(word: &DiskWord) -> u64
    ensures { result ≡ (if is_cut word.now then 1 else 0) }
{
    match word {
        DiskWord::Cut(_) => 1,
        _ => 0,
    }
}
