//! What is so of passes that were seated and joined again. Each law is a function with nothing to do: that its contract is
//! proved is the law.
ghost use Rattle.std.specs.Prelude.{◌≡◌, List, ℕ};
ghost use Rattle.turnstile.specs.Joinings.{HasJoinedAll};
ghost use Rattle.turnstile.specs.Numbers.{AreWhole};
ghost use Rattle.turnstile.specs.Rules.{Settled, first_view, joined, new_seat, passes_known, with_new_seat};
ghost use Rattle.turnstile.specs.declared.view.PassView.{PassView};

use crate::machine::Machine;

/// A caller that joins again all that it seated knows whole passes at the end: so it is where nothing was seated, as in
/// calls and glances; where a pass was seated, both went on so, and the two were joined; and then from the first pass on.
pub fn joined_passes_are_whole<M: Machine>()
    ensures none { (before after : PassView M.Op M.Outcome) → after.number ≡ before.number → after.seated ≡ before.seated → after.ended ≡ before.ended → HasJoinedAll before after }
    ensures joined { (before seated own other others after : PassView M.Op M.Outcome) → seated ≡ with_new_seat before → other ≡ new_seat before
        → HasJoinedAll seated own → HasJoinedAll other others → Settled (joined own others) after → HasJoinedAll before after }
    ensures whole { (origin : List ℕ) (first last : PassView M.Op M.Outcome) → first ≡ first_view origin → HasJoinedAll first last → AreWhole (passes_known last) }
{}
