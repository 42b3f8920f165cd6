//! Which names a run is to leave in the store, as its transcript tells.

use std::alloc::{AllocError, Global};

/// What a request asks of the names.
#[derive(Clone, Copy, Debug, PartialEq, Eq)]
enum Change<'t> {
    Nothing,
    Import(&'t str),
    Delete(&'t str),
    Init,
}

/// The names in the slots, in order. The name of an empty slot is no text.
#[derive(Drop)]
struct Slots<'t> {
    names: Vec<&'t str>,
}

impl<'t> Slots<'t> {
    // The slot of this name, if it is there. That of no text is the lowest empty one.
    fn place_of(&self, name: &str) -> Option<usize> {
        self.names.iter().position(|known| *known == name)
    }

    // An import keeps the slot of a name that is there, and else takes the lowest empty one.
    fn import(&mut self, name: &'t str) -> Result<(), AllocError> {
        if self.place_of(name).is_some() {
            return Ok(());
        }
        match self.place_of("") {
            Some(place) => self.set(place, name),
            None => self.names.push(name)?,
        }
        Ok(())
    }

    fn delete(&mut self, name: &str) {
        if let Some(place) = self.place_of(name) {
            self.set(place, "");
        }
    }

    fn set(&mut self, place: usize, name: &'t str) {
        if let Some(known) = self.names.get_mut(place) {
            *known = name;
        }
    }

    // Empties the first slots that have a name, so many of them.
    fn erase(&mut self, count: usize) {
        let mut left = count;
        for place in self.names.iter_mut() {
            let name = *place;
            if left > 0 && !name.is_empty() {
                *place = "";
                left -= 1;
            }
        }
    }

    // The step was done whole, and so many keys are erased where it is INITIALIZATION.
    fn change(&mut self, change: Change<'t>, erased: usize) -> Result<(), AllocError> {
        match change {
            Change::Nothing => Ok(()),
            Change::Import(name) => self.import(name),
            Change::Delete(name) => {
                self.delete(name);
                Ok(())
            }
            Change::Init => {
                self.erase(erased);
                Ok(())
            }
        }
    }

    // The line that tells these names.
    fn told(&self, alloc: Global) -> Result<String, AllocError> {
        let names = self.names.iter().filter(|name| !name.is_empty());
        let mut told = format!(in alloc; "< 16 told names {}", names.count())?;
        for name in self.names.iter().filter(|name| !name.is_empty()) {
            told.push(' ')?;
            told.push_str(name)?;
        }
        told.push('\n')?;
        Ok(told)
    }
}

/// The names that a run leaves, line by line of its transcript: those without what the struck step was to do, and those
/// with it. The line of a struck finish tells how many keys were changed whole, and that of the next loading whether
/// the slot in doubt is new.
#[derive(Drop)]
struct Reader<'t> {
    before: Slots<'t>,
    after: Slots<'t>,
    requests: Vec<Change<'t>>,
    submitted: Change<'t>,
    struck: Option<usize>,
    is_new: bool,
}

impl<'t> Reader<'t> {
    fn new(alloc: Global) -> Reader<'t> {
        Reader {
            before: Slots {
                names: Vec::new(alloc),
            },
            after: Slots {
                names: Vec::new(alloc),
            },
            requests: Vec::new(alloc),
            submitted: Change::Nothing,
            struck: None,
            is_new: false,
        }
    }

    // Takes a line of the transcript.
    fn take(&mut self, line: &'t str) -> Result<(), AllocError> {
        if let Some(step) = line.strip_prefix("> ") {
            self.struck = changed_before_strike(step);
            self.submitted = submitted(step);
            self.is_new = self.is_new || step.ends_with(" new");
            return Ok(());
        }
        let mut words = line.split(' ').skip(2);
        match (words.next(), words.next(), words.next()) {
            (Some("request"), Some(_), _) => self.requests.push(self.submitted)?,
            (Some("ended"), Some(id), Some(code)) => {
                let change = request_of(self.requests.as_slice(), id);
                self.end(change, code)?;
            }
            _ => {}
        }
        Ok(())
    }

    // A request ends with this code. The first that ends in a struck finish is the one that was in work.
    fn end(&mut self, change: Change<'t>, code: &str) -> Result<(), AllocError> {
        if code == "OK" {
            self.before.change(change, usize::MAX)?;
            return self.after.change(change, usize::MAX);
        }
        let Some(erased) = self.struck.take() else {
            return Ok(());
        };
        if change == Change::Init {
            self.before.change(change, erased)?;
        }
        self.after.change(change, erased.saturating_add(1))
    }
}

// What the request of this id asks. Ids count up from 1.
fn request_of<'t>(requests: &[Change<'t>], id: &str) -> Change<'t> {
    let number = id.parse::<usize>().unwrap_or(0);
    match requests.get(number.wrapping_sub(1)) {
        Some(change) => *change,
        None => Change::Nothing,
    }
}

// What a step asks of the names, where it is a submit: `submit S T COMMAND`.
fn submitted(step: &str) -> Change<'_> {
    let mut words = step.split(' ');
    if words.next() != Some("submit") {
        return Change::Nothing;
    }
    let mut command = words.skip(2);
    match (command.next(), command.next()) {
        (Some("import"), Some(name)) => Change::Import(name),
        (Some("delete"), Some(name)) => Change::Delete(name),
        (Some("init"), None) => Change::Init,
        _ => Change::Nothing,
    }
}

// How many keys a struck finish had changed whole: `finish / cut N` or `finish / failed N`.
fn changed_before_strike(step: &str) -> Option<usize> {
    let word = step.strip_prefix("finish / ")?;
    let number = match word.strip_prefix("cut ") {
        Some(number) => number,
        None => word.strip_prefix("failed ")?,
    };
    number.parse::<usize>().ok()
}

/// The transcript ends with the names that the run leaves: each key that was acknowledged and not deleted or erased
/// since, and of the step that was struck either none of what it was to do, or all of it where a loading has told so.
pub fn names_are_kept(alloc: Global, transcript: &str) -> Result<bool, AllocError> {
    let mut reader = Reader::new(alloc);
    for line in transcript.lines() {
        reader.take(line)?;
    }
    let told = if reader.is_new {
        reader.after.told(alloc)?
    } else {
        reader.before.told(alloc)?
    };
    Ok(transcript.ends_with(told.as_str()))
}
