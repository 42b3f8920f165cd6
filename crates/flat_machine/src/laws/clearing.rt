//! How long a PIN and a key part are kept: what clears them, what fills them, and that nothing else changes them.
ghost use Rattle.std.specs.Prelude.{◌≡◌, ◌⊎◌, [], IsTrue, false};
ghost use Rattle.entry_core.specs.Entries.{is_key_part, is_pin};
ghost use Rattle.key_import.specs.Imports.{is_part};
ghost use Rattle.key_source.specs.declared.Key.{Key};
ghost use Rattle.pad_steps.specs.declared.commands.ImportRequest.{ImportRequest};
ghost use Rattle.pad_steps.specs.declared.commands.PinRequest.{PinRequest};
ghost use Rattle.pad_steps.specs.declared.steps.DiskWord.{DiskWord};
ghost use Rattle.flat_machine.specs.PinFacts.{EntryRuns};
ghost use Rattle.flat_machine.specs.Clearing.{ChangesPart, ChangesPin, ClearsPart, ClearsPin, FillsPart, HoldsNothing, KeepsPart, KeepsPin, UsesPin, WhereAnswered, WhereFinished, WhereStarted};
ghost use Rattle.flat_machine.specs.Settings.{Setting};
ghost use Rattle.flat_machine.specs.State.{Flat, is_off};
ghost use Rattle.flat_machine.specs.EveryRun.{InEveryRun, AtEveryStep, after_step};
ghost use Rattle.pad_steps.specs.declared.commands.Command.TheVariants as commands;
ghost use Rattle.pad_steps.specs.declared.steps.Step.TheVariants as steps;

/// While a PIN entry runs, no PIN is held. An entry of data or of a key part leaves a held PIN.
pub fn no_pin_in_pin_entry()
    ensures { InEveryRun (λ set state. EntryRuns is_pin state.shared → state.held ≡ []) }
{}

/// While the device is off, no PIN is held, the part buffer is empty and maintain is off; so after Off.
pub fn nothing_held_while_off()
    ensures runs { InEveryRun (λ set state. IsTrue (is_off state.shared.device) → HoldsNothing state) }
    ensures off { InEveryRun (λ set state. (word : DiskWord) → HoldsNothing (after_step set state steps.Off word)) }
{}

/// What clears the held PIN: the start of a PIN entry; a PIN command that is answered while maintain is off; MAINTAIN_PIN
/// off and INITIALIZATION, where they are answered; RESET, whatever its word. Refused, these leave the PIN, but for RESET.
pub fn pin_is_cleared()
    ensures started { WhereStarted is_pin ClearsPin }
    ensures used { (request : PinRequest) → WhereAnswered (commands.Pin request) UsesPin }
    ensures unmaintained { WhereAnswered (commands.MaintainPin false) ClearsPin }
    ensures initialized { WhereAnswered commands.Init ClearsPin }
    ensures reset { WhereFinished commands.Reset ClearsPin }
{}

/// These, the end of a PIN entry by a key, and steps after which the device is off, are all the moments at which the held
/// PIN changes.
pub fn pin_changes_at()
    ensures { AtEveryStep (λ set state step word. KeepsPin state (after_step set state step word) ⊎ ChangesPin set state step word) }
{}

/// What clears the part buffer: the start of a key part entry; an import from the part buffer and INITIALIZATION, where
/// they are answered; RESET, whatever its word.
pub fn part_is_cleared()
    ensures started { WhereStarted is_key_part ClearsPart }
    ensures imported { (request : ImportRequest) →
        IsTrue (is_part request.source) → WhereAnswered (commands.ImportKey request) ClearsPart }
    ensures initialized { WhereAnswered commands.Init ClearsPart }
    ensures reset { WhereFinished commands.Reset ClearsPart }
{}

/// A key that ends a key part entry fills the part buffer with the digits that were entered. CANCEL leaves none of them.
pub fn part_is_filled()
    ensures { (set : Setting) (state : Flat) (key : Key) (word : DiskWord) → FillsPart set state key word }
{}

/// These, and steps after which the device is off, are all the moments at which the part buffer changes.
pub fn part_changes_at()
    ensures { AtEveryStep (λ set state step word. KeepsPart state (after_step set state step word) ⊎ ChangesPart set state step word) }
{}
