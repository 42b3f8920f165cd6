//! What has left the device: what outs tell of the digits of PINs and of key parts.
ghost use Rattle.std.specs.Prelude.{◌≡◌, IsTrue, List, ℕ};
ghost use Rattle.key_source.specs.declared.Key.{Key};
ghost use Rattle.pad_steps.specs.Formed.{is_block_request};
ghost use Rattle.pad_steps.specs.declared.commands.BlockRequest.{BlockRequest};
ghost use Rattle.pad_steps.specs.declared.steps.DiskWord.{DiskWord};
ghost use Rattle.flat_machine.specs.Disclosure.{BlockFixesPin, DifferInDigits, HidesPart, IsFormedBlock, IsTakenBlock, PartsSayAlike, SayAlike, TellsPart, told_answers};
ghost use Rattle.flat_machine.specs.Machine.{Act, releases_from};
ghost use Rattle.flat_machine.specs.Settings.{Setting, standard_setting};
ghost use Rattle.flat_machine.specs.State.{Flat};
ghost use Rattle.flat_machine.specs.EveryRun.{AtEveryPress, AtTwinSteps, InTwinRuns};

use des_core::laws::{
    exclusive_or_undoes_itself, triple_encryption_of_blocks, triple_encryption_tells_blocks_apart,
};
use pin_blocks::laws::{blocks_are_eight_bytes, blocks_fix_the_pin};

/// The released values are exactly the blocks and checks that a run tells as the ends of requests, each once and in order.
/// A session that asks for the reply of its request later is told it again; that is no end.
pub fn released_values_are_told()
    ensures { (set : Setting) (state : Flat) (acts : List Act) →
        releases_from set state acts ≡ told_answers set state acts }
{}

/// Nothing else in an out depends on a digit: twin steps from states that are alike say the same, apart from the blocks and
/// checks that they answer, also where these differ. Where they are the same, the steps go on alike: that is `unwinding`.
pub fn answers_alone_show_digits()
    ensures { AtTwinSteps SayAlike }
{}

/// A block that is released fixes the PIN, in each form and under one key or two: where two states that differ in digits
/// alone release one block, they hold the same PIN. Formats 0, 1 and 3 hold the length of the PIN. The padded forms do not,
/// so of them it is said of PINs of one length, as twins have: their number of digits was told.
pub fn released_block_fixes_the_pin()
    ensures held { (fill : ℕ → ℕ) (block : BlockRequest) (first second : Flat) →
        IsTakenBlock block → DifferInDigits block.form first second → BlockFixesPin (standard_setting fill) block first second }

    // So of twins: if both release one block, both hold the same PIN there.
    ensures runs { (fill : ℕ → ℕ) (block : BlockRequest) →
        IsFormedBlock block → InTwinRuns (standard_setting fill) (BlockFixesPin (standard_setting fill) block) }

    // What is asked of the request is so of each that a line of a script can spell.
    ensures formed { (block : BlockRequest) → IsTrue (is_block_request block) → IsFormedBlock block }
{
    blocks_are_eight_bytes();
    blocks_fix_the_pin();
    triple_encryption_tells_blocks_apart();
    triple_encryption_of_blocks();
    exclusive_or_undoes_itself();
}

/// What a key part entry says of its digits: KEY is masked or shows a key that is no digit; the end tells how many digits
/// there are, and the key check value that was asked for; and nothing more, for entries that agree in these say the same.
pub fn key_part_entry_hides()
    ensures outs { AtEveryPress HidesPart }
    ensures told { AtEveryPress TellsPart }
    ensures alike { (set : Setting) (first second : Flat) (key other : Key) (word : DiskWord) →
        PartsSayAlike set first second key other word }
{}
