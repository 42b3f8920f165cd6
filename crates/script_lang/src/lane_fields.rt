//! The words that stand in lane scripts alone.
ghost use Rattle.std.specs.Prelude.{◌≡◌, ◌≤◌, IfSome};
ghost use Rattle.script_lang.specs.LaneReading.{read_awaited, read_lane, read_lane_id, read_lane_verb, read_marked, read_nth};

use crate::cutting::is;
use crate::fields::{read_number, read_session};
use crate::lane_kinds::{LaneId, LaneVerb};
use pad_words::Session;
use spelled_words::{Spelled, value_of};

/// The number of lanes.
const LAST_LANE: u32 = 16;

// first words of steps of a lane alone
const LANE_VERBS: [Spelled<LaneVerb>; 3] = [
    Spelled(LaneVerb::Cancel, "cancel"),
    Spelled(LaneVerb::Ask, "ask"),
    Spelled(LaneVerb::Await, "await"),
];

// the verb of a lane that this word spells
#[tactic(auto, unfolding(crate::specs::LaneReading::read_lane_verb))]
pub fn read_lane_verb(word: &[u8]) -> Option<LaneVerb>
    ensures { result ≡ read_lane_verb word.now }
{
    value_of(&LANE_VERBS, word)
}

// this mark, and a number from 1 to `high` behind it
#[tactic(auto, unfolding(crate::specs::LaneReading::read_marked))]
fn read_marked(mark: u8, high: u32, word: &[u8]) -> Option<u32>
    ensures exact { result ≡ read_marked mark high word.now }
    ensures range { IfSome result (λ n. (1 ≤ n) × (n ≤ high)) }
{
    match word {
        [] => None,
        [first, digits @ ..] => {
            if *first == mark {
                read_number(1, high, digits)
            } else {
                None
            }
        }
    }
}

// `@` and the number of a lane
pub fn read_lane(word: &[u8]) -> Option<u8>
    ensures exact { result ≡ read_lane word.now }
    ensures range { IfSome result (λ n. (1 ≤ n) × (n ≤ 16)) }
{
    let lane = read_marked(b'@', LAST_LANE, word)?;
    Some(lane as u8)
}

// `#` and the number of a Submit
pub fn read_nth(word: &[u8]) -> Option<u32>
    ensures exact { result ≡ read_nth word.now }
    ensures range { IfSome result (λ n. (1 ≤ n) × (n ≤ 4294967295)) }
{
    read_marked(b'#', u32::MAX, word)
}

// `0`, or `#` and the number of a Submit
#[tactic(auto, unfolding(crate::specs::LaneReading::read_lane_id))]
pub fn read_lane_id(word: &[u8]) -> Option<LaneId>
    ensures { result ≡ read_lane_id word.now }
{
    if is(word, "0") {
        Some(LaneId::Zero)
    } else {
        Some(LaneId::Nth(read_nth(word)?))
    }
}

// `entry`, or a session whose reply is awaited
#[tactic(auto, unfolding(crate::specs::LaneReading::read_awaited))]
pub fn read_awaited(word: &[u8]) -> Option<Option<Session>>
    ensures { result ≡ read_awaited word.now }
{
    if is(word, "entry") {
        Some(None)
    } else {
        Some(Some(read_session(word)?))
    }
}
