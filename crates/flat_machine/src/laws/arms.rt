//! What a strike that is armed at a device call makes of the words.

ghost use Rattle.std.specs.Prelude.{◌≤◌, ◌<◌, ℕ, IsTrue, None, Some, not};
ghost use Rattle.pad_steps.specs.declared.steps.DiskWord.{DiskWord};
ghost use Rattle.flat_machine.specs.Arms.{Armed, Due, Struck, is_struck};
ghost use Rattle.flat_machine.specs.ArmFacts.{IsAhead, IsOnlyDue};
ghost use Rattle.flat_machine.specs.Power.{Plan, fits_plan, planned_calls};

/// A word that a strike makes fits the step's calls, and is the only one that is due. A word is struck exactly where the armed call is among the calls, and never without an arm. Calls count from 1, and what is armed stays a call to come.
pub fn strikes_are_as_armed()
    ensures fits { (calls : Plan) (armed : ℕ × Struck) (word : DiskWord) (after : Armed) →
        0 < armed.0 → Due calls (Some armed) word after → IsTrue (is_struck word) →
        IsTrue (fits_plan calls word) }
    ensures only { (calls : Plan) (armed : ℕ × Struck) →
        armed.0 ≤ planned_calls calls → (word : DiskWord) × IsOnlyDue calls (Some armed) word None }
    ensures strikes { (calls : Plan) (armed : ℕ × Struck) (word : DiskWord) (after : Armed) →
        armed.0 ≤ planned_calls calls → Due calls (Some armed) word after → IsTrue (is_struck word) }
    ensures within { (calls : Plan) (armed : ℕ × Struck) (word : DiskWord) (after : Armed) →
        IsTrue (is_struck word) → Due calls (Some armed) word after → armed.0 ≤ planned_calls calls }
    ensures unarmed { (calls : Plan) (word : DiskWord) (after : Armed) →
        Due calls None word after → IsTrue (not (is_struck word)) }
    ensures ahead { (calls : Plan) (armed : Armed) (word : DiskWord) (after : Armed) →
        Due calls armed word after → IsAhead after }
{}
