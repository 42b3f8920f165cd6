//! What holds of the grammar's definitions.
ghost use Rattle.std.specs.Prelude.{◌≡◌, ◌↔◌, ◌+◌, ◌++◌, ◌∷◌, [], ℕ, List, Option, Some, IsTrue};
ghost use Rattle.std.specs.Fmt.{decimal};
ghost use Rattle.pad_steps.specs.declared.steps.Step.{Step};
ghost use Rattle.pad_steps.specs.Formed.{is_well_formed};
ghost use Rattle.script_lang.specs.declared.kinds.Line.{Line};
ghost use Rattle.script_lang.specs.declared.kinds.Line.TheVariants.{Do};
ghost use Rattle.script_lang.specs.Spelling.{Spells, step_text};
ghost use Rattle.script_lang.specs.Reading.{line_of};
ghost use Rattle.script_lang.specs.declared.lane_kinds.LaneLine.{LaneLine};
ghost use Rattle.script_lang.specs.declared.lane_kinds.LaneLine.TheVariants.{At};
ghost use Rattle.script_lang.specs.declared.lane_kinds.LaneStep.TheVariants.{Plain};
ghost use Rattle.script_lang.specs.LaneReading.{lane_line_of};
ghost use Rattle.script_lang.specs.LaneSpelling.{is_lane, is_plain, SpellsLane};
ghost use Rattle.script_lang.specs.Lines.{CutEnd, cut_of, still};
ghost use Rattle.script_lang.specs.Scripts.{IsReadLineByLine};

/// A printed step spells the step and is read again, no bytes spell two lines,
/// and reading a line gives exactly the line that is spelled.
pub fn spelled_again()
    ensures spells { (s : Step) → IsTrue (is_well_formed s) → Spells (step_text s) (Do s) }
    ensures again { (s : Step) → IsTrue (is_well_formed s) → line_of (step_text s) ≡ Some (Do s) }
    ensures one { (line : List ℕ) (l m : Line) → Spells line l → Spells line m → l ≡ m }
    ensures exact { (line : List ℕ) (l : Line) → (line_of line ≡ Some l) ↔ Spells line l }
{}

/// A script is its first line and the script that this leaves, whatever its lines are read as, until its text ends or a
/// bad line comes.
pub fn scripts_are_read_line_by_line<L>()
    ensures { (read : List ℕ → Option L) (n : ℕ) (text : List ℕ) → IsReadLineByLine read n text }
{}

/// Where a cut or a reader says that nothing is left, nothing is.
pub fn texts_end_once()
    ensures cut { (n : ℕ) (text : List ℕ) → cut_of n text ≡ CutEnd → text ≡ [] }
    ensures left { (kept : List ℕ) (left : Option (List ℕ)) → still kept left ≡ Some [] → left ≡ Some [] }
{}

/// No bytes spell two lines of a lane script, and reading one gives exactly the line that is spelled. A line of a
/// script whose step lanes have is one behind a lane's word and a space, and a step of a script stands there so.
pub fn lane_lines_are_spelled()
    ensures one { (line : List ℕ) (l m : LaneLine) → SpellsLane line l → SpellsLane line m → l ≡ m }
    ensures exact { (line : List ℕ) (l : LaneLine) → (lane_line_of line ≡ Some l) ↔ SpellsLane line l }
    ensures plain { (lane : ℕ) (line : List ℕ) (s : Step) → IsTrue (is_lane lane) → IsTrue (is_plain s)
        → Spells line (Do s) → SpellsLane (64 ∷ (decimal lane ++ 32 ∷ line)) (At lane (Plain s)) }
    ensures behind { (lane : ℕ) (line : List ℕ) (s : Step) → SpellsLane line (At lane (Plain s))
        → (rest : List ℕ) × (line ≡ 64 ∷ (decimal lane ++ 32 ∷ rest)) × Spells rest (Do s) }
{}
