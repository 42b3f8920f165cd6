//! The steps of a lane script, lane by lane.
ghost use Rattle.std.specs.Global.{Vec};
ghost use Rattle.std.specs.Prelude.{◌≡◌, [], IfOk, List, map, replicate, set, get_or, ◌++◌, ◌∷◌, ◌<◌, length, OnOk};
ghost use Rattle.script_lang.specs.declared.lane_kinds.LaneStep.{LaneStep};

use pad_words::NoMemory;
use script_lang::{LaneLine, LaneStep};
use std::alloc::Global;
use std::marker::Model;

/// The sixteen lanes of a lane script, each the list of its steps.
#[derive(Drop)]
pub struct Lanes {
    lists: Vec<Vec<LaneStep>>,
}

impl Model for Lanes {
    ghost use Rattle.std.specs.Global.{Vec};
    ghost use Rattle.std.specs.Prelude.{List, length, map, ◌≡◌};
    ghost use Rattle.script_lang.specs.declared.lane_kinds.LaneStep.{LaneStep};

    ghost Value = { List (List LaneStep) };

    ghost view = { λ l. map (λ (lane : Vec LaneStep). lane.items) l.lists.items };

    ghost invariant = { λ l. length l.lists.items ≡ 16 };
}

impl Lanes {
    ghost use Rattle.lane_scripts.specs.LaneScripts.{lanes_of, with_last_line};
    ghost use Rattle.script_lang.specs.LaneSpelling.{HasLane};

    /// Sixteen lanes with no step.
    pub(crate) fn empty(alloc: Global) -> Result<Lanes, NoMemory>
        ensures { IfOk result (λ lanes. lanes ≡ lanes_of []) }
    {
        let lists = empty_lists(alloc, 16)?;
        Ok(Lanes { lists })
    }

    /// The sixteen lanes, 1 to 16: lane `k` stands at place `k - 1`.
    pub fn items(&self) -> &[Vec<LaneStep>]
        ensures lanes { map (λ (lane : Vec LaneStep). lane.items) result.now ≡ self.now }
        ensures sixteen { length result.now ≡ 16 }
    {
        self.lists.as_slice()
    }

    /// Puts the step of a line behind those of its lane. A blank line has none.
    pub(crate) fn add_line(&mut self, line: LaneLine) -> Result<(), NoMemory>
        requires { HasLane line }
        ensures { OnOk result (self.new ≡ with_last_line self.old line) }
    {
        match line {
            LaneLine::Blank => Ok(()),
            LaneLine::At(lane, step) => add_step(&mut self.lists, usize::from(lane) - 1, step),
        }
    }
}

// so many empty lists
fn empty_lists(alloc: Global, count: usize) -> Result<Vec<Vec<LaneStep>>, NoMemory>
    ensures { IfOk result (λ lists. map (λ (lane : Vec LaneStep). lane.items) lists.items ≡ replicate count []) }
{
    let mut lists = Vec::new(alloc);
    for _ in 0..count {
        if lists.push(Vec::new(alloc)).is_err() {
            return Err(NoMemory);
        }
    }
    Ok(lists)
}

// puts a step behind those of the list at this place
fn add_step(lists: &mut [Vec<LaneStep>], place: usize, step: LaneStep) -> Result<(), NoMemory>
    requires { place < length lists.old }
    ensures size { length lists.new ≡ length lists.old }
    ensures step { OnOk result (map (λ (lane : Vec LaneStep). lane.items) lists.new
        ≡ set (map (λ (lane : Vec LaneStep). lane.items) lists.old) place
        (get_or (map (λ (lane : Vec LaneStep). lane.items) lists.old) place [] ++ step ∷ [])) }
{
    push_step(&mut lists[place], step)
}

// puts a step behind these
fn push_step(steps: &mut Vec<LaneStep>, step: LaneStep) -> Result<(), NoMemory>
    ensures { OnOk result (steps.new.items ≡ steps.old.items ++ step ∷ []) }
{
    match steps.push(step) {
        Ok(()) => Ok(()),
        Err(_) => Err(NoMemory),
    }
}
