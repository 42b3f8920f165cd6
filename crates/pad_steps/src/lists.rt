//! Lists of rows, of names, of what is said, and of the disk's words.
ghost use Rattle.std.specs.Prelude.{◌≡◌, ◌≤◌, ◌<◌, ◌+◌, ◌++◌, ◌∷◌, [], OnOk, OnErr, IfOk, IsOk};
ghost use Rattle.key_attributes.specs.SlotRows.{SlotsRise};

use crate::answers::Out;
use crate::steps::DiskWord;
use key_attributes::KeyRow;
use pad_words::{KeyName, NoMemory};
use std::alloc::Global;
use std::marker::Model;

/// Key rows behind their slots, each slot above those before it.
#[derive(Drop)]
pub struct Rows {
    list: Vec<(u8, KeyRow)>,
}

impl Model for Rows {
    ghost use Rattle.std.specs.Prelude.{ℕ, List};
    ghost use Rattle.key_attributes.specs.declared.KeyRow.{KeyRow};
    ghost use Rattle.key_attributes.specs.SlotRows.{SlotsRise};

    ghost Value = { List (ℕ × KeyRow) };

    ghost view = { λ r. r.list.items };

    ghost invariant = { λ r. SlotsRise r.list.items };
}

impl Rows {
    /// No rows. It takes no memory.
    pub fn empty(alloc: Global) -> Rows
        ensures { result ≡ [] }
    {
        Rows {
            list: Vec::new(alloc),
        }
    }

    /// The rows of this list, whose slots rise.
    pub fn of(list: Vec<(u8, KeyRow)>) -> Rows
        requires rising { SlotsRise list.items }
        ensures rows { result ≡ list.items }
    {
        Rows { list }
    }

    /// The rows in order, each behind its slot.
    pub fn items(&self) -> &[(u8, KeyRow)]
        ensures rows { result.now ≡ self.now }
        ensures rising { SlotsRise result.now }
    {
        self.list.as_slice()
    }

    /// Puts a row last, whose slot is above the others. After want of memory the list is as before.
    pub fn push(&mut self, item: (u8, KeyRow)) -> Result<(), NoMemory>
        requires rising { SlotsRise (self.old ++ item ∷ []) }
        ensures ok { OnOk result (self.new ≡ self.old ++ item ∷ []) }
        ensures err { OnErr result (self.new ≡ self.old) }
    {
        match self.list.push(item) {
            Ok(()) => Ok(()),
            Err(_) => Err(NoMemory),
        }
    }
}

/// Names of keys.
#[derive(Drop)]
pub struct Names {
    list: Vec<KeyName>,
}

impl Model for Names {
    ghost use Rattle.std.specs.Prelude.{ℕ, List};

    ghost Value = { List (List ℕ) };

    ghost view = { λ n. n.list.items };
}

impl Names {
    /// No names. It takes no memory.
    pub fn empty(alloc: Global) -> Names
        ensures { result ≡ [] }
    {
        Names {
            list: Vec::new(alloc),
        }
    }

    /// The names in order.
    pub fn items(&self) -> &[KeyName]
        ensures { result.now ≡ self.now }
    {
        self.list.as_slice()
    }

    /// Puts a name last. After want of memory the list is as before.
    pub fn push(&mut self, item: KeyName) -> Result<(), NoMemory>
        ensures ok { OnOk result (self.new ≡ self.old ++ item ∷ []) }
        ensures err { OnErr result (self.new ≡ self.old) }
    {
        match self.list.push(item) {
            Ok(()) => Ok(()),
            Err(_) => Err(NoMemory),
        }
    }
}

/// What a step says, in order, and how many more outs it takes without memory.
#[derive(Drop)]
pub struct Outs {
    list: Vec<Out>,
}

impl Model for Outs {
    ghost use Rattle.std.specs.Prelude.{vec_len, vec_capacity, ◌-◌};
    ghost use Rattle.pad_steps.specs.Lines.{OutList};

    ghost Value = { OutList };

    ghost view = { λ o. record { items = o.list.items; spare = vec_capacity o.list - vec_len o.list } };
}

impl Outs {
    /// No outs, with room for a reply and an event to each of sixteen sessions.
    pub fn new(alloc: Global) -> Result<Outs, NoMemory>
        ensures none { IfOk result (λ o. o.items ≡ []) }
        ensures room { IfOk result (λ o. 17 ≤ o.spare) }
    {
        match Vec::with_capacity(alloc, 17) {
            Ok(list) => Ok(Outs { list }),
            Err(_) => Err(NoMemory),
        }
    }

    /// The outs in order.
    pub fn items(&self) -> &[Out]
        ensures { result.now ≡ self.now.items }
    {
        self.list.as_slice()
    }

    /// Makes room for n more, without memory where so many places are spare. After want of memory the list is as before.
    pub fn reserve(&mut self, n: usize) -> Result<(), NoMemory>
        ensures items { self.new.items ≡ self.old.items }
        ensures room { OnOk result (n ≤ self.new.spare) }
        ensures spare { n ≤ self.old.spare → IsOk result }
    {
        match self.list.reserve(n) {
            Ok(()) => Ok(()),
            Err(_) => Err(NoMemory),
        }
    }

    /// Puts an out last, without memory where a place is spare. After want of memory the list is as before.
    pub fn push(&mut self, item: Out) -> Result<(), NoMemory>
        ensures ok { OnOk result (self.new.items ≡ self.old.items ++ item ∷ []) }
        ensures err { OnErr result (self.new.items ≡ self.old.items) }
        ensures room { 0 < self.old.spare → IsOk result }
        ensures spare { self.old.spare ≤ self.new.spare + 1 }
    {
        match self.list.push(item) {
            Ok(()) => Ok(()),
            Err(_) => Err(NoMemory),
        }
    }

    /// Drops all outs, and keeps the memory for later ones.
    pub fn clear(&mut self)
        ensures { self.new.items ≡ [] }
    {
        self.list.clear();
    }
}

/// The words of a run, one for each step.
#[derive(Drop)]
pub struct Words {
    list: Vec<DiskWord>,
}

impl Model for Words {
    ghost use Rattle.std.specs.Prelude.{List};
    ghost use Rattle.pad_steps.specs.declared.steps.DiskWord.{DiskWord};

    ghost Value = { List DiskWord };

    ghost view = { λ w. w.list.items };
}

impl Words {
    /// No words. It takes no memory.
    pub fn empty(alloc: Global) -> Words
        ensures { result ≡ [] }
    {
        Words {
            list: Vec::new(alloc),
        }
    }

    /// The words of this list.
    pub fn of(list: Vec<DiskWord>) -> Words
        ensures { result ≡ list.items }
    {
        Words { list }
    }

    /// The words in order.
    pub fn items(&self) -> &[DiskWord]
        ensures { result.now ≡ self.now }
    {
        self.list.as_slice()
    }

    /// Puts a word last. After want of memory the list is as before.
    pub fn push(&mut self, item: DiskWord) -> Result<(), NoMemory>
        ensures ok { OnOk result (self.new ≡ self.old ++ item ∷ []) }
        ensures err { OnErr result (self.new ≡ self.old) }
    {
        match self.list.push(item) {
            Ok(()) => Ok(()),
            Err(_) => Err(NoMemory),
        }
    }
}
