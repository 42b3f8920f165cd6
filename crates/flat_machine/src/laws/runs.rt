//! Runs and their parts.

ghost use Rattle.std.specs.Prelude.{◌≡◌, ◌++◌, List};
ghost use Rattle.flat_machine.specs.Settings.{Setting};
ghost use Rattle.flat_machine.specs.State.{Flat};
ghost use Rattle.flat_machine.specs.Machine.{Act, run_from, lines_from, releases_from};

/// A run of two parts is the second part's run from where the first part ends, and so are its lines and the values that it releases.
pub fn run_parts()
    ensures state { (set : Setting) (start : Flat) (before after : List Act) →
        run_from set start (before ++ after) ≡ run_from set (run_from set start before) after }
    ensures lines { (set : Setting) (start : Flat) (before after : List Act) →
        lines_from set start (before ++ after) ≡ lines_from set start before ++ lines_from set (run_from set start before) after }
    ensures releases { (set : Setting) (start : Flat) (before after : List Act) →
        releases_from set start (before ++ after) ≡ releases_from set start before ++ releases_from set (run_from set start before) after }
{}
