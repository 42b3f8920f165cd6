//! What is so of each work that a command comes to, and of the device calls that are planned.

ghost use Rattle.std.specs.Prelude.{◌≡◌, IsTrue, None, false, true, ℕ};
ghost use Rattle.pad_steps.specs.declared.commands.Command.{Command};
ghost use Rattle.flat_machine.specs.Commands.{work_of};
ghost use Rattle.entry_core.specs.Entries.{entry_of};
ghost use Rattle.flat_machine.specs.FinishSteps.{plan_of};
ghost use Rattle.flat_machine.specs.WorkFacts.{Suits, is_answer, is_crypt, is_done, is_load, is_management, is_reset, manages};
ghost use Rattle.flat_machine.specs.DiskSteps.{is_replacing};
ghost use Rattle.flat_machine.specs.State.{Shared, is_off, is_ready};
ghost use Rattle.flat_machine.specs.Settings.{Setting};
ghost use Rattle.flat_machine.specs.Machine.{fits, planned};
ghost use Rattle.pad_steps.specs.declared.steps.Step.{Step};
ghost use Rattle.pad_steps.specs.declared.steps.DiskWord.TheVariants.{Quiet};

/// How many digits are held changes no device call; each work suits the state; a command that is no entry ends; and
/// CRYPT alone is answered at once.
pub fn works_of_commands()
    ensures calls { (set : Setting) (shared : Shared) (count other : ℕ) (command : Command) →
        plan_of shared (work_of set shared count command) ≡ plan_of shared (work_of set shared other command) }
    ensures suits { (set : Setting) (shared : Shared) (count : ℕ) (command : Command) →
        Suits set shared count command (work_of set shared count command) }
    ensures ends { (set : Setting) (shared : Shared) (count : ℕ) (command : Command) →
        entry_of command ≡ None → IsTrue (is_done (work_of set shared count command)) }
    ensures answers { (set : Setting) (shared : Shared) (count : ℕ) (command : Command) →
        is_crypt command ≡ false → is_answer (work_of set shared count command) ≡ false }
    ensures management { (set : Setting) (shared : Shared) (count : ℕ) (command : Command) →
        manages command ≡ false → is_management (work_of set shared count command) ≡ false }
    ensures loads { (set : Setting) (shared : Shared) (count : ℕ) (command : Command) →
        is_reset command ≡ false → is_load (work_of set shared count command) ≡ false }
    // Slots are replaced on a device that is ready alone.
    ensures ready { (set : Setting) (shared : Shared) (count : ℕ) (command : Command) →
        is_off shared.device ≡ false → is_replacing (plan_of shared (work_of set shared count command)) ≡ true →
        is_ready shared.device ≡ true }
{}

/// A step for which no device call is planned may have the word Quiet.
pub fn no_call_is_quiet()
    ensures { (set : Setting) (shared : Shared) (step : Step) →
        planned set shared step ≡ 0 → IsTrue (fits set shared step Quiet) }
{}
