//! Legal histories, in parts and as they are printed.

ghost use Rattle.std.specs.Prelude.{◌≡◌, ◌++◌, List, map};
ghost use Rattle.flat_machine.specs.Settings.{Setting};
ghost use Rattle.flat_machine.specs.State.{Flat};
ghost use Rattle.flat_machine.specs.Machine.{lines_from, run_from};
ghost use Rattle.flat_machine.specs.Histories.{HistoryEntry, FitsFrom, LegalFrom, act_of, line_of_entry};

/// A history of two parts is legal exactly where the first part is, and the second is from where the first ends.
pub fn legal_parts()
    ensures joined { (set : Setting) (start : Flat) (before after : List HistoryEntry) →
        LegalFrom set start before → LegalFrom set (run_from set start (map act_of before)) after → LegalFrom set start (before ++ after) }
    ensures front { (set : Setting) (start : Flat) (before after : List HistoryEntry) →
        LegalFrom set start (before ++ after) → LegalFrom set start before }
    ensures rest { (set : Setting) (start : Flat) (before after : List HistoryEntry) →
        LegalFrom set start (before ++ after) → LegalFrom set (run_from set start (map act_of before)) after }
{}

/// What is printed of a legal history is what is printed of the run of its steps and words, and each of the words fits.
pub fn legal_lines()
    ensures lines { (set : Setting) (start : Flat) (history : List HistoryEntry) →
        LegalFrom set start history → map line_of_entry history ≡ lines_from set start (map act_of history) }
    ensures words { (set : Setting) (start : Flat) (history : List HistoryEntry) →
        LegalFrom set start history → FitsFrom set start (map act_of history) }
{}
