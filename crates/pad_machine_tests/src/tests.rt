//! A step that is told twice, beside the same step of an equal pad: its lists and its word are the same three times.
ghost use Rattle.std.specs.Prelude.{◌≡◌, IfOk};
ghost use Rattle.pad_steps.specs.declared.commands.Algorithm.TheVariants.{Ecb};
ghost use Rattle.pad_steps.specs.declared.commands.Start.TheVariants.{Zero};

mod jobs;

use crypt_commands::{CryptDone, CryptJob};
use disk_core::MemDisk;
use local_check::StandardWork;
use pad_machine::{Pad, Stepped};
use pad_steps::{
    Algorithm, Answer, Command, CryptRequest, DiskWord, ImportRequest, ImportSource, Out, Outs,
    Question, Reply, Start, Step, Told, Verify,
};
use pad_words::{Direction, KeyName, Octets, Session};
use std::alloc::Global;
use std::marker::Model;
use std::process::Abort;
use std::test::Fail;

/// A pad over its disk, and how many steps it took.
#[derive(Drop)]
struct Device {
    pad: Pad<StandardWork>,
    disk: MemDisk,
    taken: u32,
}

// The pad belongs to the disk, and has no more requests than it took steps.
impl Model for Device {
    ghost use Rattle.std.specs.Prelude.{ℕ, ◌≤◌, length};
    ghost use Rattle.disk_core.specs.DiskMemories.{DiskMemory, memory_state};
    ghost use Rattle.disk_core.specs.MemoryDisks.{memory_of};
    ghost use Rattle.pad_machine.specs.Runs.{PadIsTied};
    ghost use Rattle.pad_machine.specs.Stands.{PadState};

    ghost Value = { PadState × DiskMemory × ℕ };

    ghost view = { λ d. (d.pad, memory_of d.disk, d.taken) };

    ghost invariant = { λ d. PadIsTied d.pad (memory_state (memory_of d.disk)) × (length d.pad.kept.shared.requests ≤ d.taken) };
}

impl Device {
    // A pad that is off, over an empty disk.
    fn off(alloc: Global) -> Result<Device, Fail> {
        Ok(Device {
            pad: Pad::new(alloc, StandardWork, [0; 32])?,
            disk: MemDisk::new(),
            taken: 0,
        })
    }

    // Takes a step, told once.
    fn step(&mut self, step: &Step, outs: &mut Outs) -> Result<Stepped, Fail> {
        if !step.is_well_formed() || self.taken >= 100 {
            return Err("a step of a short run")?;
        }
        let stepped = self.pad.step(&mut self.disk, step, outs)?;
        self.taken += 1;
        Ok(stepped)
    }

    // Takes a step, told twice.
    fn step_twice(
        &mut self,
        step: &Step,
        outs: &mut Outs,
        second: &mut Outs,
    ) -> Result<(Stepped, Stepped), Fail> {
        if !step.is_well_formed() || self.taken >= 100 {
            return Err("a step of a short run")?;
        }
        let both = self.pad.step_twice(&mut self.disk, step, outs, second)?;
        self.taken += 1;
        Ok(both)
    }

    // Takes Finish with a command that was run before.
    fn step_done(
        &mut self,
        done: &CryptDone,
        outs: &mut Outs,
        second: &mut Outs,
    ) -> Result<(Stepped, Stepped), Fail> {
        if self.taken >= 100 {
            return Err("a step of a short run")?;
        }
        let both = self.pad.step_done(&mut self.disk, done, outs, second)?;
        self.taken += 1;
        Ok(both)
    }

    // The command in work, to be run apart from the pad.
    fn job(&self) -> Result<Option<CryptJob>, Fail> {
        Ok(self.pad.job()?)
    }
}

/// How long a list is, and its bytes, or its last name.
type Listed<'a> = Option<(usize, &'a [u8])>;

// The rows that the word loaded, or the list that was said last.
fn listed<'a>(outs: &'a Outs, word: &'a DiskWord) -> Listed<'a> {
    if let DiskWord::Loaded(rows) = word {
        let row = rows.items().last()?;
        return Some((rows.items().len(), row.1.name.text()));
    }
    match outs.items().last()? {
        Out::Ended(_, _, Reply::Ok(Answer::Crypt(bytes)))
        | Out::Told(_, Told::Reply(_, Reply::Ok(Answer::Crypt(bytes)))) => {
            Some((bytes.items().len(), bytes.items()))
        }
        Out::Told(_, Told::Names(names)) => {
            let name = names.items().last()?;
            Some((names.items().len(), name.text()))
        }
        _ => None,
    }
}

// A Submit of an import in clear of the key of this name, which may encrypt.
fn import(alloc: Global, session: Session, name: &[u8]) -> Result<Step, Fail> {
    let request = ImportRequest {
        name: KeyName::read(name).ok_or("a name")?,
        source: ImportSource::Clear(Octets::copy(alloc, KEY)?),
        uses: 1,
        verify: Verify::Nothing,
    };
    Ok(Step::Submit(session, 0, Command::ImportKey(request)))
}

// A command that encrypts under the key of this name.
fn encryption(alloc: Global, name: &[u8], clear: &[u8]) -> Result<CryptRequest, Fail>
    ensures { IfOk result (λ request. (request.algorithm ≡ Ecb) × (request.start ≡ Zero)) }
{
    Ok(CryptRequest {
        algorithm: Algorithm::Ecb,
        direction: Direction::Encrypt,
        key: KeyName::read(name).ok_or("a name")?,
        start: Start::Zero,
        pad: 0,
        body: Octets::copy(alloc, clear)?,
    })
}

// A Submit that encrypts under the key of this name.
fn encrypt(alloc: Global, session: Session, name: &[u8], clear: &[u8]) -> Result<Step, Fail> {
    let request = encryption(alloc, name, clear)?;
    Ok(Step::Submit(session, 0, Command::Crypt(request)))
}

/// The same pad twice: one that tells each step once, and one that tells it twice.
#[derive(Drop)]
struct Both {
    once: Device,
    twice: Device,
}

impl Both {
    // Takes the step of a case, and compares the lists that are told with that of the case.
    fn compare(
        &mut self,
        rt: &impl Abort,
        alloc: Global,
        step: &Step,
        list: Listed<'_>,
    ) -> Result<(), Fail> {
        let mut outs = Outs::new(alloc)?;
        let mut first = Outs::new(alloc)?;
        let mut second = Outs::new(alloc)?;
        let told = self.once.step(step, &mut outs)?;
        let (answer, again) = self.twice.step_twice(step, &mut first, &mut second)?;
        assert!(rt; listed(&outs, &told.word) == list);
        assert!(rt; listed(&first, &answer.word) == list);
        assert!(rt; listed(&second, &again.word) == list);
        assert_eq!(rt; first.items().len(), outs.items().len());
        assert_eq!(rt; second.items().len(), outs.items().len());
        assert!(rt; answer.fate == told.fate && again.fate == told.fate);
        Ok(())
    }
}

/// The steps of a run of session 1.
#[derive(Clone, Copy)]
enum Case {
    Boot,
    Open,
    /// A key of this name is imported.
    Import(&'static [u8]),
    /// This is encrypted under the key A.
    Encrypt(&'static [u8]),
    Begin,
    Finish,
    AskNames,
    AskReply(u32),
    Off,
}

fn step_of(alloc: Global, session: Session, case: Case) -> Result<Step, Fail> {
    match case {
        Case::Boot => Ok(Step::Boot),
        Case::Open => Ok(Step::Open(session)),
        Case::Import(name) => import(alloc, session, name),
        Case::Encrypt(clear) => encrypt(alloc, session, b"A", clear),
        Case::Begin => Ok(Step::Begin),
        Case::Finish => Ok(Step::Finish),
        Case::AskNames => Ok(Step::Ask(session, Question::Names)),
        Case::AskReply(id) => Ok(Step::Ask(session, Question::Reply(id))),
        Case::Off => Ok(Step::Off),
    }
}

/// The key of the tests.
const KEY: &[u8] = &[0x01, 0x23, 0x45, 0x67, 0x89, 0xAB, 0xCD, 0xEF];

/// What eight bytes are under that key (NBS 500-20).
const SEALED: &[u8] = &[0x3F, 0xA4, 0x0E, 0x8A, 0x98, 0x4D, 0x48, 0x15];

/// Each step, and the list that it tells: an answer of CRYPT, the names of keys, that answer once more, and rows.
const CASES: &[(Case, Listed<'static>)] = &[
    (Case::Boot, None),
    (Case::Open, None),
    (Case::Import(b"A"), None),
    (Case::Begin, None),
    (Case::Finish, None),
    (Case::Import(b"B"), None),
    (Case::Begin, None),
    (Case::Finish, None),
    (Case::Encrypt(b"Now is t"), None),
    (Case::Begin, None),
    (Case::Finish, Some((8, SEALED))),
    (Case::AskNames, Some((2, b"B"))),
    (Case::AskReply(3), Some((8, SEALED))),
    (Case::Off, None),
    (Case::Boot, Some((2, b"B"))),
];

// Takes the steps of these cases.
fn compare_all(
    rt: &impl Abort,
    alloc: Global,
    session: Session,
    both: &mut Both,
    cases: &[(Case, Listed<'static>)],
) -> Result<(), Fail> {
    for (case, list) in cases {
        let step = step_of(alloc, session, *case)?;
        both.compare(rt, alloc, &step, *list)?;
    }
    Ok(())
}

#[test]
fn lists_are_told_twice(rt: HostRuntime) -> Result<(), Fail> {
    let session = Session::new(1).ok_or("1 to 16")?;
    let mut both = Both {
        once: Device::off(rt.alloc())?,
        twice: Device::off(rt.alloc())?,
    };
    compare_all(&rt, rt.alloc(), session, &mut both, CASES)
}
