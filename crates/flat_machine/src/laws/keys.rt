//! What is so of the key rows in every run.

ghost use Rattle.std.specs.Prelude.{IsTrue, List};
ghost use Rattle.std.specs.List.{list_all};
ghost use Rattle.flat_machine.specs.Settings.{Setting};
ghost use Rattle.flat_machine.specs.State.{Flat};
ghost use Rattle.flat_machine.specs.Machine.{Act, run_from};
ghost use Rattle.flat_machine.specs.Facts.{IsStart};
ghost use Rattle.flat_machine.specs.KeyFacts.{loads_table};
ghost use Rattle.key_table.specs.Tables.{is_table};
ghost use Rattle.flat_machine.specs.EveryRun.{AtEveryStep, after_step};

use key_table::laws::changes_keep_a_table;

/// The slots of the key rows rise and are below 64, and no name stands twice: in every run that loads such rows alone, and after each step from such a state.
pub fn key_rows()
    ensures runs { (set : Setting) (start : Flat) (acts : List Act) → IsStart start →
        IsTrue (list_all (λ (act : Act). loads_table act.word) acts) → IsTrue (is_table (run_from set start acts).shared.keys) }
    ensures step { AtEveryStep (λ set state step word.
        IsTrue (loads_table word) → IsTrue (is_table state.shared.keys) → IsTrue (is_table (after_step set state step word).shared.keys)) }
{
    changes_keep_a_table();
}
