//! Calls that can answer that memory is wanting, where it is not. Whole runs make all the others.

use crate::table::Table;
use pad_steps::{Command, DiskWord, ImportRequest, ImportSource, Out, Outs, Told, Verify, Words};
use pad_words::{KeyName, NoMemory, Octets, Session};
use std::alloc::{AllocError, Global};

/// The table of lists that grow, and of a command that is copied.
pub fn lists(alloc: Global) -> Result<Table, AllocError> {
    let mut table = Table::named(alloc, "lists that grow");
    table.check("bytes", grows_bytes(alloc) == Ok(true))?;
    table.check("outs", grows_outs(alloc) == Ok(true))?;
    table.check("words", grows_words(alloc) == Ok(true))?;
    table.check("a command", copies_command(alloc) == Ok(true))?;
    Ok(table)
}

fn grows_bytes(alloc: Global) -> Result<bool, NoMemory> {
    let mut bytes = Octets::copy(alloc, b"ab")?;
    bytes.push(b'c')?;
    bytes.append(b"de")?;
    Ok(bytes.items() == b"abcde".as_slice())
}

fn grows_outs(alloc: Global) -> Result<bool, NoMemory> {
    let mut outs = Outs::new(alloc)?;
    outs.reserve(100)?;
    if let Some(session) = Session::new(16) {
        outs.push(Out::Told(session, Told::Closed))?;
    }
    Ok(matches!(outs.items(), [Out::Told(_, Told::Closed)]))
}

fn grows_words(alloc: Global) -> Result<bool, NoMemory> {
    let mut words = Words::empty(alloc);
    words.push(DiskWord::Failed(7))?;
    words.push(DiskWord::Done)?;
    Ok(matches!(words.items(), [DiskWord::Failed(7), DiskWord::Done]))
}

fn copies_command(alloc: Global) -> Result<bool, NoMemory> {
    let Some(name) = KeyName::read(b"PPK") else {
        return Ok(false);
    };
    let command = Command::ImportKey(ImportRequest {
        name,
        source: ImportSource::Clear(Octets::copy(alloc, b"key value")?),
        uses: 2,
        verify: Verify::Zero,
    });
    let is_copied = match command.copy(alloc)? {
        Command::ImportKey(request) => match &request.source {
            ImportSource::Clear(value) => value.items() == b"key value".as_slice(),
            _ => false,
        },
        _ => false,
    };
    Ok(is_copied)
}
