//! Chains of slots, by which a name is found among the rows.
ghost use Rattle.std.specs.Prelude.{◌≡◌, ◌+◌, ◌∷◌, ◌<◌, [], IfSome, IsTrue, bytes_eq, drop, length, replicate, slice_index, slice_set, ◌≤◌};
ghost use Rattle.std.specs.List.{position, sum};
ghost use Rattle.key_table.specs.KeyRows.{KeyRows};
ghost use Rattle.key_table.specs.SlotIndexes.{HasPlaces, LeadsTo, chain_of, link_after, with_link};
ghost use Rattle.key_table.specs.Tables.{is_table};

use key_attributes::KeyRow;
use pad_words::KeyName;

/// What stands for no slot at the end of a chain.
pub const END: u8 = 64;

/// 32 chains of slots. The chain of a name is the sum of its bytes modulo 32.
#[derive(Drop)]
pub struct SlotIndex {
    // The first slot of each chain.
    pub first: [u8; 32],
    // The next slot in the chain of each slot that has a row.
    pub next: [u8; 64],
    // The place of the row of each slot that has one.
    pub places: [u8; 64],
}

/// An index of no rows.
pub fn no_chains() -> SlotIndex
    ensures { LeadsTo result 0 [] }
{
    SlotIndex {
        first: no_slots(),
        next: no_links(),
        places: no_links(),
    }
}

fn no_slots() -> [u8; 32]
    ensures { result ≡ replicate 32 64 }
{
    [END; 32]
}

fn no_links() -> [u8; 64]
    ensures { result ≡ replicate 64 64 }
{
    [END; 64]
}

/// The chains of these rows.
pub fn chains_of(rows: &[(u8, KeyRow)]) -> SlotIndex
    requires { IsTrue (is_table rows.now) }
    ensures { LeadsTo result 0 rows.now }
{
    let mut index = no_chains();
    let mut place = rows.len();
    while place > 0 {
        place -= 1;
        enter(&mut index, place as u8, &rows[place]);
    }
    index
}

/// The place of the row of this name, if the name is present. It looks at one chain.
pub fn place_of_name(rows: &[(u8, KeyRow)], index: &SlotIndex, name: &KeyName) -> Option<usize>
    requires table { IsTrue (is_table rows.now) }
    requires index { LeadsTo index.now 0 rows.now }
    ensures { result ≡ position (λ row. bytes_eq row.1.name name.now) rows.now }
{
    let mut slot = index.first[chain_of(name)];
    while slot < END {
        let at = usize::from(slot);
        let place = usize::from(index.places[at]);
        if is_named(&rows[place], name) {
            return Some(place);
        }
        slot = index.next[at];
    }
    None
}

// Whether the row has the name.
fn is_named(row: &(u8, KeyRow), name: &KeyName) -> bool
    ensures { result ≡ bytes_eq row.now.1.name name.now }
{
    row.1.name.text() == name.text()
}

// Puts a row before those of the index.
fn enter(index: &mut SlotIndex, place: u8, row: &(u8, KeyRow))
    requires { row.now.0 < 64 }
    ensures { (rows : KeyRows) → IsTrue (is_table (row.now ∷ rows)) →
        LeadsTo index.old (place + 1) rows → LeadsTo index.new place (row.now ∷ rows) }
{
    let chain = chain_of(&row.1.name);
    let slot = usize::from(row.0);
    index.places[slot] = place;
    index.next[slot] = index.first[chain];
    index.first[chain] = row.0;
}

/// The slot comes into its chain behind the one before it, if one is.
pub fn enter_chain(index: &mut SlotIndex, chain: usize, before: Option<u8>, slot: u8)
    requires chain { chain < 32 }
    requires before { IfSome before (λ last. last < 64) }
    requires slot { slot < 64 }
    ensures first { index.new.first ≡ (with_link index.old chain before slot).first }
    ensures next { index.new.next ≡ slice_set (with_link index.old chain before slot).next slot (link_after index.old chain before) }
{
    let link = relink(index, chain, before, slot);
    index.next[usize::from(slot)] = link;
}

/// The slot goes out of its chain, where this one is before it, if one is.
pub fn leave_chain(index: &mut SlotIndex, chain: usize, before: Option<u8>, slot: u8)
    requires chain { chain < 32 }
    requires before { IfSome before (λ last. last < 64) }
    requires slot { slot < 64 }
    ensures { index.new ≡ with_link index.old chain before (slice_index index.old.next slot) }
{
    let link = index.next[usize::from(slot)];
    relink(index, chain, before, link);
}

/// Each slot of a row gets the row's place.
pub fn number_rows(rows: &[(u8, KeyRow)], index: &mut SlotIndex)
    requires { IsTrue (is_table rows.now) }
    ensures first { index.new.first ≡ index.old.first }
    ensures next { index.new.next ≡ index.old.next }
    ensures places { HasPlaces index.new.places 0 rows.now }
{
    for place in 0..rows.len() {
        index.places[usize::from(rows[place].0)] = place as u8;
    }
}

// The chain leads to this slot from the one before, or from its beginning. Where it led to until now.
fn relink(index: &mut SlotIndex, chain: usize, before: Option<u8>, link: u8) -> u8
    requires chain { chain < 32 }
    requires before { IfSome before (λ last. last < 64) }
    ensures index { index.new ≡ with_link index.old chain before link }
    ensures link { result ≡ link_after index.old chain before }
{
    match before {
        None => {
            let old = index.first[chain];
            index.first[chain] = link;
            old
        }
        Some(slot) => {
            let old = index.next[usize::from(slot)];
            index.next[usize::from(slot)] = link;
            old
        }
    }
}

/// The chain of a name.
pub fn chain_of(name: &KeyName) -> usize
    ensures chain { result ≡ chain_of name.now }
    ensures below { result < 32 }
{
    let total = sum_of(name.text());
    usize::from(total % 32)
}

// The sum of the bytes.
fn sum_of(text: &[u8]) -> u16
    requires { length text.now ≤ 32 }
    ensures { result ≡ sum text.now }
{
    let mut total: u16 = 0;
    for byte in text {
        total += u16::from(*byte);
    }
    total
}
