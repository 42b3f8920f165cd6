//! The script of ordinary use: a key, a PIN and its block. One line is blank.

use std::alloc::{AllocError, Global};

/// Each line of the script with what is printed of it.
const LINES: [(&str, &str); 15] = [
    ("boot\n", "> boot / loaded 0 first\n"),
    ("\n", ""),
    ("open 1\n", "> open 1\n< 1 told open\n"),
    (
        "listen 1 execute\n",
        "> listen 1 execute\n< 1 told listening execute\n",
    ),
    (
        "submit 1 0 import PPK clear 0000000000000000 0002 zero\n",
        "> submit 1 0 import PPK clear 0000000000000000 0002 zero\n< 1 request 1\n",
    ),
    (
        "auto\n",
        "> begin\n> finish / done\n< 1 ended 1 OK key 8CA64D\n",
    ),
    (
        "submit 1 300 getpin 4 6 hold 000F03FF00000000 0003000000000000\n",
        "> submit 1 300 getpin 4 6 hold 000F03FF00000000 0003000000000000\n< 1 request 2\n",
    ),
    ("auto\n", "> begin\n< 1 event ENTERDATA\n"),
    ("press 1\n", "> press *\n< 1 event KEY *\n"),
    ("press 2\n", "> press *\n< 1 event KEY *\n"),
    ("press 3\n", "> press *\n< 1 event KEY *\n"),
    ("press 4\n", "> press *\n< 1 event KEY *\n"),
    (
        "press enter\n",
        "> press enter\n< 1 event KEY enter\n< 1 ended 2 OK entered 4 enter\n",
    ),
    (
        "submit 1 0 pinblock iso0 PPK - - 543210123456789 F\n",
        "> submit 1 0 pinblock iso0 PPK - - 543210123456789 F\n< 1 request 3\n",
    ),
    (
        "auto\n",
        "> begin\n> finish\n< 1 ended 3 OK block DFB4F453C786CCBB\n",
    ),
];

/// A front of the script in bytes: how many lines it has whole, and what is printed of them.
#[derive(Drop)]
pub struct Front {
    pub lines: u32,
    pub is_whole: bool,
    pub printed: String,
}

/// The whole script.
pub fn script(alloc: Global) -> Result<String, AllocError> {
    let mut script = String::new(alloc);
    for (line, _) in LINES {
        script.push_str(line)?;
    }
    Ok(script)
}

/// The first bytes of the script, so many of them.
pub fn first_bytes(alloc: Global, size: usize) -> Result<Front, AllocError> {
    let mut front = Front {
        lines: 0,
        is_whole: true,
        printed: String::new(alloc),
    };
    let mut left = size;
    for (line, printed) in LINES {
        if left < line.len() {
            front.is_whole = left == 0;
            return Ok(front);
        }
        left -= line.len();
        front.lines = front.lines.saturating_add(1);
        front.printed.push_str(printed)?;
    }
    Ok(front)
}

/// How many lines are run, and how many bytes were read for them, where so many bytes are printed and no more. The line
/// whose text goes beyond them is run where its last step was taken, so where the text of that step is come to.
pub fn lines_reached(room: usize) -> (u32, usize) {
    let mut lines: u32 = 0;
    let mut bytes: usize = 0;
    let mut text: usize = 0;
    for (line, printed) in LINES {
        bytes = bytes.saturating_add(line.len());
        let last = printed.rfind("> ").unwrap_or(0);
        if text.saturating_add(last) > room {
            break;
        }
        lines = lines.saturating_add(1);
        text = text.saturating_add(printed.len());
        if text > room {
            break;
        }
    }
    (lines, bytes)
}
