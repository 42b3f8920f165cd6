//! The texts of steps made by hand, byte for byte. What is expected is written from the table of printed lines.

use crate::{PrintFault, Printer};
use disk_core::{Calls, Counted, MemSink};
use key_attributes::{KeyRow, KeyValue, Uses};
use key_source::Key;
use pad_steps::{
    Answer, Classes, Completion, DiskWord, Event, Fate, KeyView, Names, Out, Outs, Refusal, Reply,
    Rows, Shown, StatusView, Step, Told,
};
use pad_words::{Block, Digit, KeyName, Nibbles, Octets, Session};
use std::alloc::Global;
use std::process::Abort;
use std::test::Fail;

fn session(rt: &impl Abort, number: u8) -> Session {
    Session::new(number).expect(rt, "a session's number")
}

fn name(rt: &impl Abort, text: &str) -> KeyName {
    KeyName::read(text.as_bytes()).expect(rt, "a name")
}

fn uses(rt: &impl Abort, bits: u16) -> Uses {
    Uses::from_bits(bits).expect(rt, "valid uses")
}

fn row(rt: &impl Abort, text: &str) -> KeyRow {
    KeyRow {
        name: name(rt, text),
        value: KeyValue::new(&[0; 8]).expect(rt, "8 bytes"),
        uses: uses(rt, 2),
    }
}

fn sink(rt: &impl Abort, alloc: Global, room: usize, fails: &[u32]) -> Counted<MemSink> {
    let fails = Calls::of(fails).expect(rt, "at most 32 numbers");
    Counted::new(MemSink::new(alloc, room, fails).expect(rt, "memory"))
}

// `begin` with this word prints this line and no more
fn prints_word(
    rt: &impl Abort,
    alloc: Global,
    word: DiskWord,
    fate: Option<Fate>,
    line: &str,
) -> Result<(), Fail> {
    let outs = Outs::new(alloc)?;
    let mut sink = sink(rt, alloc, 40, &[]);
    let printed = Printer::new(alloc).print_step(
        &Step::Begin,
        false,
        &word,
        fate,
        &outs,
        &mut sink,
    );
    assert_eq!(rt; printed, Ok(()), "{line}");
    assert_eq!(rt; sink.inner().bytes(), line.as_bytes(), "{line}");
    Ok(())
}

// a `begin` that says this prints this line behind its own
fn prints_out(rt: &impl Abort, alloc: Global, out: Out, line: &str) -> Result<(), Fail> {
    let mut outs = Outs::new(alloc)?;
    outs.push(out)?;
    let mut sink = sink(rt, alloc, 100, &[]);
    let printed = Printer::new(alloc).print_step(
        &Step::Begin,
        false,
        &DiskWord::Quiet,
        None,
        &outs,
        &mut sink,
    );
    assert_eq!(rt; printed, Ok(()), "{line}");
    let out = sink.inner().bytes().strip_prefix(b"> begin\n");
    assert_eq!(rt; out, Some(line.as_bytes()), "{line}");
    Ok(())
}

#[test]
fn words_with_their_fates(rt: HostRuntime) -> Result<(), Fail> {
    let mut rows = Rows::empty(rt.alloc());
    rows.push((0, row(&rt, "PPK")))?;
    let none = Rows::empty(rt.alloc());
    prints_word(&rt, rt.alloc(), DiskWord::Quiet, None, "> begin\n")?;
    prints_word(&rt, rt.alloc(), DiskWord::Done, None, "> begin / done\n")?;
    prints_word(
        &rt,
        rt.alloc(),
        DiskWord::Failed(0),
        None,
        "> begin / failed 0\n",
    )?;
    prints_word(
        &rt,
        rt.alloc(),
        DiskWord::Cut(63),
        None,
        "> begin / cut 63\n",
    )?;
    prints_word(&rt, rt.alloc(), DiskWord::Bad(7), None, "> begin / bad 7\n")?;
    prints_word(
        &rt,
        rt.alloc(),
        DiskWord::Loaded(none),
        Some(Fate::First),
        "> begin / loaded 0 first\n",
    )?;
    prints_word(
        &rt,
        rt.alloc(),
        DiskWord::Loaded(rows),
        Some(Fate::New),
        "> begin / loaded 1 new\n",
    )?;
    let none = Rows::empty(rt.alloc());
    prints_word(
        &rt,
        rt.alloc(),
        DiskWord::Loaded(none),
        Some(Fate::Old),
        "> begin / loaded 0 old\n",
    )?;
    let none = Rows::empty(rt.alloc());
    prints_word(
        &rt,
        rt.alloc(),
        DiskWord::Loaded(none),
        Some(Fate::Other),
        "> begin / loaded 0 other\n",
    )?;
    Ok(())
}

#[test]
fn replies(rt: HostRuntime) -> Result<(), Fail> {
    let mut digits = Nibbles::empty();
    for value in [0, 9, 1] {
        assert!(rt; digits.push(value));
    }
    let bytes = Octets::copy(rt.alloc(), &[0x00, 0xA1, 0x9F])?;
    let block = Block([0x0E, 0x32, 0x92, 0x32, 0xEA, 0x6D, 0x0D, 0x73]);
    let cases = [
        (Answer::Done, "< 2 ended 7 OK\n"),
        (
            Answer::Entered(4, Completion::Auto),
            "< 2 ended 7 OK entered 4 auto\n",
        ),
        (
            Answer::Entered(16, Completion::Enter),
            "< 2 ended 7 OK entered 16 enter\n",
        ),
        (
            Answer::Entered(0, Completion::Cancel),
            "< 2 ended 7 OK entered 0 cancel\n",
        ),
        (
            Answer::Figures(digits, Completion::Help),
            "< 2 ended 7 OK figures 091 help\n",
        ),
        (
            Answer::Figures(Nibbles::empty(), Completion::Fdk(32)),
            "< 2 ended 7 OK figures - fdk32\n",
        ),
        (
            Answer::Part(16, Completion::Auto, Some([0xD5, 0xD4, 0x4F])),
            "< 2 ended 7 OK part 16 auto D5D44F\n",
        ),
        (
            Answer::Part(0, Completion::Cancel, None),
            "< 2 ended 7 OK part 0 cancel -\n",
        ),
        (
            Answer::Block(block),
            "< 2 ended 7 OK block 0E329232EA6D0D73\n",
        ),
        (
            Answer::Wide(block, Block([0; 8])),
            "< 2 ended 7 OK block 0E329232EA6D0D730000000000000000\n",
        ),
        (Answer::Checked(true), "< 2 ended 7 OK check yes\n"),
        (Answer::Checked(false), "< 2 ended 7 OK check no\n"),
        (Answer::Crypt(bytes), "< 2 ended 7 OK crypt 00A19F\n"),
        (Answer::Mac(block), "< 2 ended 7 OK mac 0E329232EA6D0D73\n"),
        (
            Answer::Key(Some([0x8C, 0xA6, 0x4D])),
            "< 2 ended 7 OK key 8CA64D\n",
        ),
        (Answer::Key(None), "< 2 ended 7 OK key -\n"),
    ];
    for (answer, line) in cases {
        prints_out(
            &rt,
            rt.alloc(),
            Out::Ended(session(&rt, 2), 7, Reply::Ok(answer)),
            line,
        )?;
    }
    let canceled = Reply::No(Refusal::Canceled);
    prints_out(
        &rt,
        rt.alloc(),
        Out::Ended(session(&rt, 2), 4294967295, canceled),
        "< 2 ended 4294967295 CANCELED\n",
    )
}

#[test]
fn refusals(rt: HostRuntime) -> Result<(), Fail> {
    let cases = [
        (Refusal::NoSession, "< 16 refused NOSESSION\n"),
        (Refusal::AlreadyOpen, "< 16 refused ALREADYOPEN\n"),
        (Refusal::ConnectionLost, "< 16 refused CONNECTIONLOST\n"),
        (Refusal::Locked(session(&rt, 3)), "< 16 refused LOCKED 3\n"),
        (Refusal::QueueFull(16), "< 16 refused QUEUEFULL 16\n"),
        (Refusal::UnsuppCommand, "< 16 refused UNSUPPCOMMAND\n"),
        (
            Refusal::FormatNotSupported,
            "< 16 refused FORMATNOTSUPPORTED\n",
        ),
        (Refusal::ModeNotSupported, "< 16 refused MODENOTSUPPORTED\n"),
        (Refusal::InvalidData, "< 16 refused INVALIDDATA\n"),
        (Refusal::HardwareError, "< 16 refused HARDWAREERROR\n"),
        (Refusal::BadStore(7), "< 16 refused BADSTORE 7\n"),
        (Refusal::MinimumLength, "< 16 refused MINIMUMLENGTH\n"),
        (Refusal::NoActiveKeys, "< 16 refused NOACTIVEKEYS\n"),
        (Refusal::KeyNotSupported, "< 16 refused KEYNOTSUPPORTED\n"),
        (Refusal::KeyNotFound, "< 16 refused KEYNOTFOUND\n"),
        (Refusal::KeyNoValue, "< 16 refused KEYNOVALUE\n"),
        (Refusal::UseViolation, "< 16 refused USEVIOLATION\n"),
        (Refusal::AccessDenied, "< 16 refused ACCESSDENIED\n"),
        (Refusal::InvalidKeyLength, "< 16 refused INVALIDKEYLENGTH\n"),
        (
            Refusal::DuplicateKey(name(&rt, "KEY_9")),
            "< 16 refused DUPLICATEKEY KEY_9\n",
        ),
        (Refusal::TableFull, "< 16 refused TABLEFULL\n"),
        (Refusal::NoPin, "< 16 refused NOPIN\n"),
        (Refusal::LengthError, "< 16 refused LENGTHERROR\n"),
        (Refusal::Canceled, "< 16 refused CANCELED\n"),
        (Refusal::Timeout, "< 16 refused TIMEOUT\n"),
        (Refusal::InvalidReqId, "< 16 refused INVALIDREQID\n"),
        (Refusal::NotLocked, "< 16 refused NOTLOCKED\n"),
    ];
    for (refusal, line) in cases {
        prints_out(
            &rt,
            rt.alloc(),
            Out::Refused(session(&rt, 16), refusal),
            line,
        )?;
    }
    Ok(())
}

// a status of this state, with nothing else to tell
fn bare_status(state: u8) -> Told {
    Told::Status(StatusView {
        state,
        keys: 0,
        holder: None,
        entry: false,
        pin: false,
        pending: 0,
    })
}

#[test]
fn statuses(rt: HostRuntime) -> Result<(), Fail> {
    let busy = StatusView {
        state: 1,
        keys: 64,
        holder: Some(session(&rt, 16)),
        entry: true,
        pin: false,
        pending: 3,
    };
    let held = StatusView {
        pin: true,
        entry: false,
        ..busy
    };
    let cases = [
        (
            bare_status(0),
            "< 1 told status off keys 0 holder 0 entry no pin no pending 0\n",
        ),
        (
            Told::Status(busy),
            "< 1 told status ready keys 64 holder 16 entry yes pin no pending 3\n",
        ),
        (
            Told::Status(held),
            "< 1 told status ready keys 64 holder 16 entry no pin yes pending 3\n",
        ),
        (
            bare_status(2),
            "< 1 told status stopped keys 0 holder 0 entry no pin no pending 0\n",
        ),
        (
            bare_status(3),
            "< 1 told status bad keys 0 holder 0 entry no pin no pending 0\n",
        ),
    ];
    for (told, line) in cases {
        prints_out(&rt, rt.alloc(), Out::Told(session(&rt, 1), told), line)?;
    }
    Ok(())
}

#[test]
fn keys_and_names(rt: HostRuntime) -> Result<(), Fail> {
    let complete = KeyView {
        name: name(&rt, "PPK"),
        uses: uses(&rt, 0x0002),
        length: 8,
        check: Some([0x8C, 0xA6, 0x4D]),
    };
    let part = KeyView {
        name: name(&rt, "MEK"),
        uses: uses(&rt, 0x0084),
        length: 16,
        check: None,
    };
    let mut names = Names::empty(rt.alloc());
    names.push(name(&rt, "PPK"))?;
    names.push(name(&rt, "M"))?;
    let cases = [
        (Told::Key(complete), "< 1 told key PPK 0002 8 8CA64D\n"),
        (Told::Key(part), "< 1 told key MEK 0084 16 part\n"),
        (Told::Names(Names::empty(rt.alloc())), "< 1 told names 0\n"),
        (Told::Names(names), "< 1 told names 2 PPK M\n"),
    ];
    for (told, line) in cases {
        prints_out(&rt, rt.alloc(), Out::Told(session(&rt, 1), told), line)?;
    }
    Ok(())
}

#[test]
fn answers_to_sessions(rt: HostRuntime) -> Result<(), Fail> {
    let none = Classes {
        service: false,
        execute: false,
    };
    let service = Classes {
        service: true,
        execute: false,
    };
    let execute = Classes {
        service: false,
        execute: true,
    };
    let both = Classes {
        service: true,
        execute: true,
    };
    let cases = [
        (Told::Opened, "< 1 told open\n"),
        (Told::Closed, "< 1 told closed\n"),
        (Told::Listening(none), "< 1 told listening none\n"),
        (Told::Listening(service), "< 1 told listening service\n"),
        (Told::Listening(execute), "< 1 told listening execute\n"),
        (Told::Listening(both), "< 1 told listening both\n"),
        (Told::Granted, "< 1 told granted\n"),
        (Told::Waiting(session(&rt, 12)), "< 1 told waiting 12\n"),
        (Told::Released, "< 1 told released\n"),
        (Told::Canceled(16), "< 1 told cancel 16\n"),
        (Told::Pending, "< 1 told pending\n"),
        (
            Told::Reply(4, Reply::No(Refusal::Timeout)),
            "< 1 told reply 4 TIMEOUT\n",
        ),
        (
            Told::Reply(5, Reply::Ok(Answer::Checked(false))),
            "< 1 told reply 5 OK check no\n",
        ),
        (Told::No(Refusal::InvalidReqId), "< 1 told INVALIDREQID\n"),
    ];
    for (told, line) in cases {
        prints_out(&rt, rt.alloc(), Out::Told(session(&rt, 1), told), line)?;
    }
    Ok(())
}

#[test]
fn events_and_requests(rt: HostRuntime) -> Result<(), Fail> {
    let seven = Digit::new(7).expect(&rt, "a digit");
    let cases = [
        (Event::EnterData, "< 9 event ENTERDATA\n"),
        (Event::Key(Shown::Masked), "< 9 event KEY *\n"),
        (
            Event::Key(Shown::Plain(Key::Digit(seven))),
            "< 9 event KEY 7\n",
        ),
        (Event::Key(Shown::Plain(Key::Hex(15))), "< 9 event KEY F\n"),
        (
            Event::Key(Shown::Plain(Key::Enter)),
            "< 9 event KEY enter\n",
        ),
        (
            Event::Key(Shown::Plain(Key::Fdk(32))),
            "< 9 event KEY fdk32\n",
        ),
        (Event::Initialized, "< 9 event INITIALIZED\n"),
        (
            Event::IllegalKeyAccess(name(&rt, "W"), Refusal::UseViolation),
            "< 9 event ILLEGALKEYACCESS W USEVIOLATION\n",
        ),
    ];
    for (event, line) in cases {
        prints_out(&rt, rt.alloc(), Out::Event(session(&rt, 9), event), line)?;
    }
    prints_out(
        &rt,
        rt.alloc(),
        Out::Request(session(&rt, 9), 10),
        "< 9 request 10\n",
    )
}

// a key that is not to be told is not in the text, and each out has its line in order
#[test]
fn pressed_keys(rt: HostRuntime) -> Result<(), Fail> {
    let press = Step::Press(Key::Digit(Digit::new(4).expect(&rt, "a digit")));
    let mut outs = Outs::new(rt.alloc())?;
    outs.push(Out::Event(session(&rt, 1), Event::Key(Shown::Masked)))?;
    let reply = Reply::Ok(Answer::Entered(4, Completion::Auto));
    outs.push(Out::Ended(session(&rt, 1), 2, reply))?;
    let cases = [
        (
            true,
            "> press *\n< 1 event KEY *\n< 1 ended 2 OK entered 4 auto\n",
        ),
        (
            false,
            "> press 4\n< 1 event KEY *\n< 1 ended 2 OK entered 4 auto\n",
        ),
    ];
    let mut printer = Printer::new(rt.alloc());
    for (masked, text) in cases {
        let mut sink = sink(&rt, rt.alloc(), 100, &[]);
        let word = DiskWord::Quiet;
        let printed = printer.print_step(&press, masked, &word, None, &outs, &mut sink);
        assert_eq!(rt; printed, Ok(()), "{text}");
        assert_eq!(rt; sink.inner().bytes(), text.as_bytes());
    }
    Ok(())
}

#[test]
fn failing_sinks_get_a_front(rt: HostRuntime) -> Result<(), Fail> {
    let outs = Outs::new(rt.alloc())?;
    let cases: [(usize, &[u32], &str); 2] = [(40, &[1], ""), (6, &[], "> begi")];
    let mut printer = Printer::new(rt.alloc());
    for (room, fails, front) in cases {
        let mut sink = sink(&rt, rt.alloc(), room, fails);
        let word = DiskWord::Done;
        let printed = printer.print_step(&Step::Begin, false, &word, None, &outs, &mut sink);
        assert_eq!(rt; printed, Err(PrintFault::Failed), "{front}");
        assert_eq!(rt; sink.inner().bytes(), front.as_bytes());
    }
    Ok(())
}

#[test]
fn marks_of_bad_lines(rt: HostRuntime) -> Result<(), Fail> {
    let cases = [(1, "! bad line 1\n"), (65_537, "! bad line 65537\n")];
    let mut printer = Printer::new(rt.alloc());
    for (line, text) in cases {
        let mut sink = sink(&rt, rt.alloc(), 40, &[]);
        let printed = printer.print_mark(line, &mut sink);
        assert_eq!(rt; printed, Ok(()), "{text}");
        assert_eq!(rt; sink.inner().bytes(), text.as_bytes());
    }
    Ok(())
}
