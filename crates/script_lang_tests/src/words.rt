//! Lines in and outside the grammar, their fields, and what is printed.
ghost use Rattle.std.specs.Prelude.{IsTrue};
ghost use Rattle.pad_steps.specs.Formed.{is_well_formed};

use disk_core::{Keep, Strike};
use key_source::Key;
use pad_steps::{Command, ImportSource, PinRequest, Question, Step};
use pad_words::{Digit, NoMemory, Octets};
use script_lang::{Line, LineFault, read_line, spelled_again, write_step, writing};
use std::alloc::Global;

/// What a line is: a step that is printed as it was or with upper case, or no line at all.
#[derive(Clone, Copy)]
enum Is {
    Same,
    Printed(&'static str),
    Outside,
}

const GETPIN: &str = "submit 1 0 getpin 4 16 hold 000F03FF80000001 0003000000000000";

const KEYENTRY: &str = "submit 2 7 keyentry 32 auto 001FFFFF00000000 0001000000000002 self";

const PINBLOCK: &str = "submit 1 0 pinblock iso0 PIN_KEY_1 - 0123456789ABCDEF 123456789012 F";

const LOCALDES: &str = "submit 1 0 localdes K 12AB E 012 5 nolead 0123456789012345";

const EXTRA: &str = "submit 1 0 extra 254 K 00FFA5";

const IMPORT: &str = "submit 1 0 import NEW_KEY sealed SEAL_KEY 00FFA5 8421 zero";

const CRYPT: &str = "submit 1 0 crypt cbc decrypt DATA_KEY START_KEY:FEDCBA9876543210 A5 0123FF";

// lines without a command, and what each is
const LINES: &[(&str, Is)] = &[
    ("open 1", Is::Same),
    ("open 16", Is::Same),
    ("close 1", Is::Same),
    ("close 16", Is::Same),
    ("listen 1 none", Is::Same),
    ("listen 16 service", Is::Same),
    ("listen 9 execute", Is::Same),
    ("listen 10 both", Is::Same),
    ("lock 1", Is::Same),
    ("lock 16", Is::Same),
    ("unlock 1", Is::Same),
    ("unlock 16", Is::Same),
    ("cancel 1 0", Is::Same),
    ("cancel 16 4294967295", Is::Same),
    ("begin", Is::Same),
    ("finish", Is::Same),
    ("press 0", Is::Same),
    ("press 9", Is::Same),
    ("press A", Is::Same),
    ("press F", Is::Same),
    ("press enter", Is::Same),
    ("press cancel", Is::Same),
    ("press clear", Is::Same),
    ("press back", Is::Same),
    ("press help", Is::Same),
    ("press fdk1", Is::Same),
    ("press fdk32", Is::Same),
    ("tick 1", Is::Same),
    ("tick 1000000", Is::Same),
    ("ask 1 status", Is::Same),
    ("ask 16 key K", Is::Same),
    ("ask 2 names", Is::Same),
    ("ask 1 reply 0", Is::Same),
    ("ask 16 reply 4294967295", Is::Same),
    ("off", Is::Same),
    ("boot", Is::Same),
    (" ", Is::Outside),
    (" #", Is::Outside),
    ("open", Is::Outside),
    ("open ", Is::Outside),
    ("open 0", Is::Outside),
    ("open 17", Is::Outside),
    ("open 01", Is::Outside),
    ("open 257", Is::Outside),
    ("open 4294967297", Is::Outside),
    ("open 18446744073709551617", Is::Outside),
    ("open +1", Is::Outside),
    ("open 1x", Is::Outside),
    ("open  1", Is::Outside),
    ("open 1 ", Is::Outside),
    (" open 1", Is::Outside),
    ("open\t1", Is::Outside),
    ("open 1\r", Is::Outside),
    ("open 1\n", Is::Outside),
    ("open 1 1", Is::Outside),
    ("OPEN 1", Is::Outside),
    ("opens 1", Is::Outside),
    ("close 0", Is::Outside),
    ("close 17", Is::Outside),
    ("close", Is::Outside),
    ("lock 1 1", Is::Outside),
    ("lock 17", Is::Outside),
    ("unlock ", Is::Outside),
    ("unlock 0", Is::Outside),
    ("listen 1", Is::Outside),
    ("listen 0 none", Is::Outside),
    ("listen 17 none", Is::Outside),
    ("listen 1 all", Is::Outside),
    ("listen 1 None", Is::Outside),
    ("listen 1 both both", Is::Outside),
    ("cancel 1", Is::Outside),
    ("cancel 1 4294967296", Is::Outside),
    ("cancel 1 -1", Is::Outside),
    ("cancel 1 00", Is::Outside),
    ("cancel 0 1", Is::Outside),
    ("begin 1", Is::Outside),
    ("begin ", Is::Outside),
    ("finish 1", Is::Outside),
    ("press", Is::Outside),
    ("press a", Is::Outside),
    ("press G", Is::Outside),
    ("press 10", Is::Outside),
    ("press fdk0", Is::Outside),
    ("press fdk33", Is::Outside),
    ("press fdk01", Is::Outside),
    ("press *", Is::Outside),
    ("press enter ", Is::Outside),
    ("tick", Is::Outside),
    ("tick 0", Is::Outside),
    ("tick 1000001", Is::Outside),
    ("tick 1 1", Is::Outside),
    ("ask 1", Is::Outside),
    ("ask 0 status", Is::Outside),
    ("ask 1 status 1", Is::Outside),
    ("ask 1 key", Is::Outside),
    ("ask 1 key k", Is::Outside),
    ("ask 1 names N", Is::Outside),
    ("ask 1 reply", Is::Outside),
    ("ask 1 reply 4294967296", Is::Outside),
    ("ask 1 Status", Is::Outside),
    ("auto 1", Is::Outside),
    ("auto ", Is::Outside),
    ("boot 1", Is::Outside),
    ("off ", Is::Outside),
    ("cut 1", Is::Outside),
    ("cut 0 old", Is::Outside),
    ("cut 1001 old", Is::Outside),
    ("cut 1 other", Is::Outside),
    ("cut 1 old 00", Is::Outside),
    ("cut 1  new", Is::Outside),
    ("cut 1 fill", Is::Outside),
    ("cut 1 fill 0", Is::Outside),
    ("cut 1 fill 000", Is::Outside),
    ("cut 1 fill 7G", Is::Outside),
    ("cut 1 fill 77 77", Is::Outside),
    ("fail 0", Is::Outside),
    ("fail 1001", Is::Outside),
    ("fail 1 old", Is::Outside),
];

// entries and key commands, and what each is
const COMMANDS: &[(&str, Is)] = &[
    (GETPIN, Is::Same),
    (KEYENTRY, Is::Same),
    (
        "submit 16 1000000 getpin 0 255 auto 0000000000000000 FFFFFFFFFFFFFFFF",
        Is::Same,
    ),
    (
        "submit 1 0 getdata 255 0 hold 0000000000000000 0000000000000000",
        Is::Same,
    ),
    (
        "submit 1 0 keyentry 0 hold 0000000000000000 0000000000000000 none",
        Is::Same,
    ),
    ("submit 1 0 maintain on", Is::Same),
    ("submit 1 0 maintain off", Is::Same),
    (IMPORT, Is::Same),
    ("submit 1 0 import A clear 5A 0000 none", Is::Same),
    ("submit 1 0 import A part FFFF self", Is::Same),
    (
        "submit 1 0 delete ABCDEFGHIJKLMNOPQRSTUVWXYZ_01234",
        Is::Same,
    ),
    ("submit 1 0 init", Is::Same),
    ("submit 1 0 reset", Is::Same),
    ("submit 1 0 rsa", Is::Same),
    ("submit 1 0", Is::Outside),
    ("submit 0 0 init", Is::Outside),
    ("submit 17 0 init", Is::Outside),
    ("submit 1 1000001 init", Is::Outside),
    ("submit 1 00 init", Is::Outside),
    ("submit 1 init", Is::Outside),
    (
        "submit 1 0 getpin 256 16 hold 000F03FF00000000 0003000000000000",
        Is::Outside,
    ),
    (
        "submit 1 0 getpin 4 256 hold 000F03FF00000000 0003000000000000",
        Is::Outside,
    ),
    (
        "submit 1 0 getpin 4 16 end 000F03FF00000000 0003000000000000",
        Is::Outside,
    ),
    (
        "submit 1 0 getpin 4 16 hold 000F03FF0000000 0003000000000000",
        Is::Outside,
    ),
    (
        "submit 1 0 getpin 4 16 hold 000F03FF00000000 00030000000000000",
        Is::Outside,
    ),
    ("submit 1 0 getpin 4 16 hold 000F03FF00000000", Is::Outside),
    (
        "submit 1 0 getdata 4 16 hold 000F03FF00000000 0003000000000000 none",
        Is::Outside,
    ),
    (
        "submit 1 0 keyentry 256 auto 000F03FF00000000 0003000000000000 none",
        Is::Outside,
    ),
    (
        "submit 1 0 keyentry 32 auto 000F03FF00000000 0003000000000000",
        Is::Outside,
    ),
    (
        "submit 1 0 keyentry 32 auto 000F03FF00000000 0003000000000000 own",
        Is::Outside,
    ),
    ("submit 1 0 maintain", Is::Outside),
    ("submit 1 0 maintain On", Is::Outside),
    ("submit 1 0 maintain on off", Is::Outside),
    ("submit 1 0 import A part 5A 0000 none", Is::Outside),
    ("submit 1 0 import A part 0000", Is::Outside),
    ("submit 1 0 import A part 00000 none", Is::Outside),
    ("submit 1 0 import A clear 5 0000 none", Is::Outside),
    ("submit 1 0 import A clear - 0000 none", Is::Outside),
    ("submit 1 0 import A clear 5A 000 none", Is::Outside),
    ("submit 1 0 import A clear 5A 000G none", Is::Outside),
    ("submit 1 0 import A clear 5A 0000 none none", Is::Outside),
    ("submit 1 0 import A sealed 5A 0000 none", Is::Outside),
    ("submit 1 0 import a clear 5A 0000 none", Is::Outside),
    ("submit 1 0 import A sealed - 5A 0000 none", Is::Outside),
    (
        "submit 1 0 delete ABCDEFGHIJKLMNOPQRSTUVWXYZ_012345",
        Is::Outside,
    ),
    ("submit 1 0 delete -", Is::Outside),
    ("submit 1 0 delete K K", Is::Outside),
    ("submit 1 0 init 1", Is::Outside),
    ("submit 1 0 reset ", Is::Outside),
    ("submit 1 0 rsa K", Is::Outside),
    ("submit 1 0 RSA", Is::Outside),
];

// PIN commands, crypt commands and digits in lower case, and what each is
const REQUESTS: &[(&str, Is)] = &[
    (PINBLOCK, Is::Same),
    (LOCALDES, Is::Same),
    (EXTRA, Is::Same),
    (CRYPT, Is::Same),
    ("submit 1 0 pinblock iso0 P - - - 0", Is::Same),
    ("submit 1 0 pinblock iso1 P - - F A", Is::Same),
    ("submit 1 0 pinblock iso2 P - - - 0", Is::Same),
    ("submit 1 0 pinblock iso3 P P2 - 1 0", Is::Same),
    ("submit 1 0 pinblock iso4 P - - - 0", Is::Same),
    ("submit 1 0 pinblock ibm3624 P - - 1 F", Is::Same),
    ("submit 1 0 pinblock diebold P - - 1 F", Is::Same),
    (
        "submit 1 0 pinblock dieboldco P - - 1234567890ABCDEF12345678 F",
        Is::Same,
    ),
    (
        "submit 1 0 localdes K F 0 - 0 lead 9999999999999999",
        Is::Same,
    ),
    (
        "submit 1 0 localdes K 0123456789ABCDEF F 9876543210987654 255 lead 0123456789012345",
        Is::Same,
    ),
    ("submit 1 0 extra 0 K -", Is::Same),
    ("submit 1 0 extra 255 K 00", Is::Same),
    ("submit 1 0 crypt ecb encrypt K - 00 -", Is::Same),
    (
        "submit 1 0 crypt cfb decrypt K 0123456789ABCDEF FF 00",
        Is::Same,
    ),
    ("submit 1 0 crypt mac encrypt K - 00 -", Is::Same),
    ("submit 1 0 crypt retail encrypt K - 00 -", Is::Same),
    ("submit 1 0 pinblock iso5 P - - 1 0", Is::Outside),
    ("submit 1 0 pinblock iso0 - - - 1 0", Is::Outside),
    ("submit 1 0 pinblock iso0 P -- - 1 0", Is::Outside),
    (
        "submit 1 0 pinblock iso0 P - 0123456789ABCDE 1 0",
        Is::Outside,
    ),
    (
        "submit 1 0 pinblock iso0 P - - 1234567890123456789012345 0",
        Is::Outside,
    ),
    ("submit 1 0 pinblock iso0 P - - 1 00", Is::Outside),
    ("submit 1 0 pinblock iso0 P - - 1 -", Is::Outside),
    ("submit 1 0 pinblock iso0 P - - 1", Is::Outside),
    ("submit 1 0 pinblock iso0 P - - 1 0 0", Is::Outside),
    (
        "submit 1 0 localdes K  0 - 0 lead 0123456789012345",
        Is::Outside,
    ),
    (
        "submit 1 0 localdes K - 0 - 0 lead 0123456789012345",
        Is::Outside,
    ),
    (
        "submit 1 0 localdes K 0123456789ABCDEF0 0 - 0 lead 0123456789012345",
        Is::Outside,
    ),
    (
        "submit 1 0 localdes K 1 0 98765432109876543 0 lead 0123456789012345",
        Is::Outside,
    ),
    (
        "submit 1 0 localdes K 1 0 A 0 lead 0123456789012345",
        Is::Outside,
    ),
    (
        "submit 1 0 localdes K 1 0 - 256 lead 0123456789012345",
        Is::Outside,
    ),
    (
        "submit 1 0 localdes K 1 0 - 0 yes 0123456789012345",
        Is::Outside,
    ),
    (
        "submit 1 0 localdes K 1 0 - 0 lead 012345678901234",
        Is::Outside,
    ),
    (
        "submit 1 0 localdes K 1 0 - 0 lead 01234567890123456",
        Is::Outside,
    ),
    (
        "submit 1 0 localdes K 1 0 - 0 lead 012345678901234A",
        Is::Outside,
    ),
    (
        "submit 1 0 localdes K 1 00 - 0 lead 0123456789012345",
        Is::Outside,
    ),
    (
        "submit 1 0 localdes K 1 0 - 0 lead 0123456789012345 ",
        Is::Outside,
    ),
    ("submit 1 0 extra 256 K 00", Is::Outside),
    ("submit 1 0 extra 0 K 000", Is::Outside),
    ("submit 1 0 extra 0 K", Is::Outside),
    ("submit 1 0 extra 0 - 00", Is::Outside),
    ("submit 1 0 crypt ofb encrypt K - 00 01", Is::Outside),
    ("submit 1 0 crypt cbc both K - 00 01", Is::Outside),
    (
        "submit 1 0 crypt cbc encrypt K 0123456789ABCDEF0 00 01",
        Is::Outside,
    ),
    (
        "submit 1 0 crypt cbc encrypt K :0123456789ABCDEF 00 01",
        Is::Outside,
    ),
    (
        "submit 1 0 crypt cbc encrypt K S::0123456789ABCDEF 00 01",
        Is::Outside,
    ),
    (
        "submit 1 0 crypt cbc encrypt K S:0123456789ABCDE 00 01",
        Is::Outside,
    ),
    (
        "submit 1 0 crypt cbc encrypt K s:0123456789ABCDEF 00 01",
        Is::Outside,
    ),
    ("submit 1 0 crypt cbc encrypt K - 0 01", Is::Outside),
    ("submit 1 0 crypt cbc encrypt K - - 01", Is::Outside),
    ("submit 1 0 crypt cbc encrypt K - 00 012", Is::Outside),
    ("submit 1 0 crypt cbc encrypt K - 00 0G", Is::Outside),
    ("submit 1 0 crypt cbc encrypt K - 00 01 02", Is::Outside),
    (
        "submit 1 0 getdata 4 16 hold 000f03ff0000abcd 000300000000fFfF",
        Is::Printed("submit 1 0 getdata 4 16 hold 000F03FF0000ABCD 000300000000FFFF"),
    ),
    (
        "submit 1 0 import A part abcd none",
        Is::Printed("submit 1 0 import A part ABCD none"),
    ),
    (
        "submit 1 0 import A clear 0f 0000 none",
        Is::Printed("submit 1 0 import A clear 0F 0000 none"),
    ),
    (
        "submit 1 0 localdes K ab e - 4 lead 0123456789012345",
        Is::Printed("submit 1 0 localdes K AB E - 4 lead 0123456789012345"),
    ),
    (
        "submit 1 0 pinblock iso0 P - 0123456789abcdef 12f a",
        Is::Printed("submit 1 0 pinblock iso0 P - 0123456789ABCDEF 12F A"),
    ),
    (
        "submit 1 0 crypt cbc encrypt K S:fedcba9876543210 a5 ff",
        Is::Printed("submit 1 0 crypt cbc encrypt K S:FEDCBA9876543210 A5 FF"),
    ),
    (
        "submit 1 0 extra 1 K 0a",
        Is::Printed("submit 1 0 extra 1 K 0A"),
    ),
];

// whether this is printed of the step
fn prints(alloc: Global, step: &Step, masked: bool, line: &[u8]) -> bool
    requires { IsTrue (is_well_formed step.now) }
{
    let mut text = Octets::empty(alloc);
    match write_step(alloc, step, masked, &mut text) {
        Ok(()) => text.items() == line,
        Err(NoMemory) => false,
    }
}

// whether the line is a step that is printed so
fn is_printed_as(alloc: Global, line: &[u8], printed: &[u8]) -> bool {
    match read_line(alloc, line) {
        Ok(Line::Do(step)) => prints(alloc, &step, false, printed),
        _ => false,
    }
}

// whether the line is outside the grammar
fn is_outside(alloc: Global, line: &[u8]) -> bool {
    match read_line(alloc, line) {
        Err(LineFault::Outside) => true,
        Ok(_) | Err(LineFault::NoMemory) => false,
    }
}

// whether the line is what it is to be
fn is_so(alloc: Global, line: &[u8], wanted: Is) -> bool {
    match wanted {
        Is::Same => is_printed_as(alloc, line, line),
        Is::Printed(printed) => is_printed_as(alloc, line, printed.as_bytes()),
        Is::Outside => is_outside(alloc, line),
    }
}

// the first line of the list that is otherwise
fn wrong_line(alloc: Global, lines: &[(&str, Is)]) -> Option<usize> {
    for place in 0..lines.len() {
        if !is_so(alloc, lines[place].0.as_bytes(), lines[place].1) {
            return Some(place);
        }
    }
    None
}

#[test]
fn lines_are_read_and_printed_again(rt: HostRuntime) {
    spelled_again();
    assert_eq!(rt; wrong_line(rt.alloc(), LINES), None);
}

#[test]
fn commands_are_read_and_printed_again(rt: HostRuntime) {
    assert_eq!(rt; wrong_line(rt.alloc(), COMMANDS), None);
}

#[test]
fn requests_are_read_and_printed_again(rt: HostRuntime) {
    assert_eq!(rt; wrong_line(rt.alloc(), REQUESTS), None);
}

// bytes that are no text, or have a mark of a text in front, and long words
const OTHER_BYTES: &[&[u8]] = &[
    &[b'o', b'p', b'e', b'n', b' ', 0xB1],
    &[0xEF, 0xBB, 0xBF, b'a', b'u', b't', b'o'],
    &[0, b'a', b'u', b't', b'o'],
    &[b'1'; 5000],
    &[b'#'; 4097],
    &[b' '; 5000],
];

// the first of these bytes that are a line
fn first_read(alloc: Global) -> Option<usize> {
    for place in 0..OTHER_BYTES.len() {
        if !is_outside(alloc, OTHER_BYTES[place]) {
            return Some(place);
        }
    }
    None
}

#[test]
fn other_bytes_are_outside(rt: HostRuntime) {
    assert_eq!(rt; first_read(rt.alloc()), None);
    assert!(rt; !is_outside(rt.alloc(), &[b'#'; 4096]));
}

/// A command with bytes: what stands before them and after them, their digits, and what it is.
type Counted = (&'static str, &'static str, u32, Is);

const IN_CRYPT: &str = "submit 1 0 crypt cbc encrypt K - 00 ";

const IN_EXTRA: &str = "submit 1 0 extra 1 K ";

const IN_IMPORT: &str = "submit 1 0 import K clear ";

const SEALED: &str = "submit 1 0 import K sealed K2 ";

// 1,024 bytes are the most of a crypt command, and 64 of a key's value
const COUNTED: &[Counted] = &[
    (IN_CRYPT, "", 2048, Is::Same),
    (IN_CRYPT, "", 0, Is::Outside),
    (IN_CRYPT, "", 2047, Is::Outside),
    (IN_CRYPT, "", 2049, Is::Outside),
    (IN_CRYPT, "", 2050, Is::Outside),
    (IN_EXTRA, "", 2048, Is::Same),
    (IN_EXTRA, "", 2050, Is::Outside),
    (IN_IMPORT, " 0002 none", 128, Is::Same),
    (IN_IMPORT, " 0002 none", 127, Is::Outside),
    (IN_IMPORT, " 0002 none", 130, Is::Outside),
    (SEALED, " FFFF self", 128, Is::Same),
    (SEALED, " FFFF self", 0, Is::Outside),
    (SEALED, " FFFF self", 130, Is::Outside),
    (SEALED, " FFFF self", 100_000, Is::Outside),
];

// so many digits between two texts
fn digits_between(alloc: Global, counted: &Counted) -> Result<Octets, NoMemory> {
    let mut line = Octets::copy(alloc, counted.0.as_bytes())?;
    for _ in 0..counted.2 {
        line.push(b'7')?;
    }
    writing::write_word(counted.1, &mut line)?;
    Ok(line)
}

// whether so many digits are what they are to be
fn is_counted_so(alloc: Global, counted: &Counted) -> bool {
    match digits_between(alloc, counted) {
        Ok(line) => is_so(alloc, line.items(), counted.3),
        Err(NoMemory) => false,
    }
}

// the first number of digits that is otherwise
fn wrong_count(alloc: Global) -> Option<usize> {
    for place in 0..COUNTED.len() {
        if !is_counted_so(alloc, &COUNTED[place]) {
            return Some(place);
        }
    }
    None
}

#[test]
fn bytes_up_to_the_most_are_read(rt: HostRuntime) {
    assert_eq!(rt; wrong_count(rt.alloc()), None);
}

// one for true
fn number(holds: bool) -> u64 {
    if holds { 1 } else { 0 }
}

// numbers that tell the fields of a PIN command
fn request_numbers(request: &PinRequest) -> [u64; 4] {
    match request {
        PinRequest::Block(block) => [
            block.key.text().len() as u64,
            block.customer.items().len() as u64,
            u64::from(block.pad),
            number(block.xor.is_some()),
        ],
        PinRequest::Check(check) => [
            check.validation.items().len() as u64,
            check.offset.items().len() as u64,
            u64::from(check.count),
            number(check.no_zero),
        ],
        PinRequest::Extra(extra) => [
            u64::from(extra.kind),
            extra.key.text().len() as u64,
            extra.body.items().len() as u64,
            0,
        ],
    }
}

// numbers that tell the fields of a command
fn command_numbers(command: &Command) -> [u64; 4] {
    match command {
        Command::GetPin(rules) => [
            u64::from(rules.min),
            u64::from(rules.max),
            u64::from(rules.active.fdks),
            u64::from(rules.terminate.keys),
        ],
        Command::SecureKeyEntry(rules) => [
            u64::from(rules.count),
            number(rules.auto_end),
            u64::from(rules.active.keys),
            u64::from(rules.terminate.fdks),
        ],
        Command::MaintainPin(on) => [number(*on), 0, 0, 0],
        Command::Pin(request) => request_numbers(request),
        Command::ImportKey(request) => [
            request.name.text().len() as u64,
            u64::from(request.uses),
            number(matches!(request.source, ImportSource::Part)),
            0,
        ],
        Command::Crypt(request) => [
            request.key.text().len() as u64,
            u64::from(request.pad),
            request.body.items().len() as u64,
            0,
        ],
        _ => [0; 4],
    }
}

// numbers that tell the fields of a line
fn line_numbers(line: &Line) -> [u64; 4] {
    match line {
        Line::Do(Step::Submit(_, _, command)) => command_numbers(command),
        Line::Do(Step::Listen(session, classes)) => [
            u64::from(session.get()),
            number(classes.service),
            number(classes.execute),
            0,
        ],
        Line::Do(Step::Cancel(session, id)) => { [u64::from(session.get()), u64::from(*id), 0, 0] }
        Line::Do(Step::Tick(ticks)) => [u64::from(*ticks), 0, 0, 0],
        Line::Do(Step::Ask(session, Question::Reply(id))) => {
            [u64::from(session.get()), u64::from(*id), 1, 0]
        }
        Line::Arm(call, Strike::Cut(Keep::Fill(byte))) => {
            [u64::from(*call), u64::from(*byte), 0, 0]
        }
        Line::Arm(call, Strike::Cut(Keep::Old)) => [u64::from(*call), 0, 1, 0],
        Line::Arm(call, Strike::Cut(Keep::New)) => [u64::from(*call), 0, 2, 0],
        Line::Arm(call, Strike::Fail) => [u64::from(*call), 0, 3, 0],
        Line::Auto => [0, 0, 4, 0],
        Line::Blank => [0, 0, 5, 0],
        _ => [0; 4],
    }
}

// lines, and numbers that tell their fields
const FIELDS: &[(&str, [u64; 4])] = &[
    (GETPIN, [4, 16, 0x8000_0001, 0x0003_0000]),
    (KEYENTRY, [32, 1, 0x001F_FFFF, 2]),
    ("submit 1 0 maintain on", [1, 0, 0, 0]),
    ("submit 1 0 maintain off", [0, 0, 0, 0]),
    (PINBLOCK, [9, 12, 15, 1]),
    (LOCALDES, [4, 3, 5, 1]),
    (
        "submit 1 0 localdes K 1 2 - 3 lead 0123456789012345",
        [1, 0, 3, 0],
    ),
    (EXTRA, [254, 1, 3, 0]),
    (IMPORT, [7, 0x8421, 0, 0]),
    ("submit 1 0 import K part 00FF none", [1, 0x00FF, 1, 0]),
    (CRYPT, [8, 0xA5, 3, 0]),
    ("listen 3 service", [3, 1, 0, 0]),
    ("listen 16 execute", [16, 0, 1, 0]),
    ("cancel 16 4294967295", [16, 4_294_967_295, 0, 0]),
    ("tick 1000000", [1_000_000, 0, 0, 0]),
    ("ask 2 reply 10", [2, 10, 1, 0]),
    ("cut 1000 fill 7A", [1000, 0x7A, 0, 0]),
    ("cut 1 old", [1, 0, 1, 0]),
    ("cut 12 new", [12, 0, 2, 0]),
    ("fail 1000", [1000, 0, 3, 0]),
    ("auto", [0, 0, 4, 0]),
    ("", [0, 0, 5, 0]),
    ("#", [0, 0, 5, 0]),
    ("# open 1", [0, 0, 5, 0]),
];

// whether the line has these fields
fn has_fields(alloc: Global, line: &[u8], numbers: &[u64; 4]) -> bool {
    match read_line(alloc, line) {
        Ok(line) => line_numbers(&line) == *numbers,
        Err(_) => false,
    }
}

// the first line of the list that has other fields
fn wrong_fields(alloc: Global, lines: &[(&str, [u64; 4])]) -> Option<usize> {
    for place in 0..lines.len() {
        if !has_fields(alloc, lines[place].0.as_bytes(), &lines[place].1) {
            return Some(place);
        }
    }
    None
}

#[test]
fn lines_have_their_fields(rt: HostRuntime) {
    assert_eq!(rt; wrong_fields(rt.alloc(), FIELDS), None);
}

// whether a press is printed with its key, and without it where it is masked
fn masks_press(alloc: Global) -> bool {
    match Digit::new(7) {
        Some(digit) => {
            let press = Step::Press(Key::Digit(digit));
            prints(alloc, &press, true, "press *".as_bytes())
                && prints(alloc, &press, false, "press 7".as_bytes())
        }
        None => false,
    }
}

#[test]
fn masked_presses_are_printed_without_their_key(rt: HostRuntime) {
    assert!(rt; masks_press(rt.alloc()));
}
