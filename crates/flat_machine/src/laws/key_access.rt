//! What is so of the keys that commands use, and of the values of keys.

ghost use Rattle.std.specs.Prelude.{◌≡◌, ◌≤◌, ◌<◌, ◌&&◌, ℕ, IsTrue, List, Some};
ghost use Rattle.std.specs.List.{AllByRecursion, list_all};
ghost use Rattle.pad_steps.specs.declared.answers.Answer.{Answer};
ghost use Rattle.pad_steps.specs.declared.answers.Reply.TheVariants as replied;
ghost use Rattle.pad_steps.specs.declared.commands.Command.{Command};
ghost use Rattle.pad_steps.specs.declared.steps.DiskWord.{DiskWord};
ghost use Rattle.pad_steps.specs.declared.steps.Step.{Step};
ghost use Rattle.pad_steps.specs.declared.steps.Step.TheVariants as steps;
ghost use Rattle.request_queue.specs.Requests.{request_in_work};
ghost use Rattle.request_queue.specs.declared.requests.Request.{Request};
ghost use Rattle.flat_machine.specs.Settings.{Setting, triple_des};
ghost use Rattle.flat_machine.specs.State.{Flat};
ghost use Rattle.flat_machine.specs.Machine.{Act, next, run_from};
ghost use Rattle.flat_machine.specs.Facts.{IsStart};
ghost use Rattle.flat_machine.specs.RequestFacts.{endings};
ghost use Rattle.flat_machine.specs.EndingFacts.{one_end};
ghost use Rattle.flat_machine.specs.AccessFacts.{IsUsable, needs};
ghost use Rattle.flat_machine.specs.KeyRowFacts.{KeepsBlocks, are_valid, has_no_duplicates, loads_no_duplicates, loads_valid, submits_name};

/// A command that was answered used keys that are in the table at that moment, are complete, and have the use.
pub fn answers_use_usable_keys()
    ensures { (set : Setting) (state : Flat) (word : DiskWord) (request : Request Command) (answer : Answer) →
        request_in_work state.shared.requests ≡ Some request →
        endings (next set state steps.Finish word).outs ≡ one_end request (replied.Ok answer) →
        AllByRecursion (IsUsable state.shared.keys) (needs set.pin_rules request.command) }
{}

/// Two complete keys have the same value only where neither forbids it: in every run that loads such rows alone, and after each step from such a state.
pub fn keys_keep_their_values_apart()
    ensures runs { (set : Setting) (start : Flat) (acts : List Act) →
        IsStart start → IsTrue (list_all (λ (act : Act). loads_no_duplicates act.word) acts) →
        IsTrue (has_no_duplicates (run_from set start acts).shared.keys) }
    ensures step { (set : Setting) (state : Flat) (step : Step) (word : DiskWord) →
        IsTrue (loads_no_duplicates word) → IsTrue (has_no_duplicates state.shared.keys) →
        IsTrue (has_no_duplicates (next set state step word).state.shared.keys) }
{}

/// Every row has a key's name, a value of 8, 16 or 24 bytes, and valid uses: in every run that loads such rows alone, and submits imports of such names alone. Triple DES deciphers blocks to blocks, as this needs.
pub fn key_rows_are_valid()
    ensures runs { (set : Setting) (start : Flat) (acts : List Act) →
        KeepsBlocks set.cipher → IsStart start →
        IsTrue (list_all (λ (act : Act). loads_valid act.word && submits_name act.step) acts) →
        IsTrue (are_valid (run_from set start acts).shared.keys) }
    ensures triple { KeepsBlocks triple_des }
{}

/// No fill word is used twice: a step uses no others than those numbered from what was drawn before it up to what is drawn after it, and what is drawn never falls.
pub fn fill_words_are_fresh()
    ensures own { (set : Setting) (other : ℕ → ℕ) (state : Flat) (step : Step) (word : DiskWord) →
        ((number : ℕ) → state.shared.drawn ≤ number → number < (next set state step word).state.shared.drawn → other number ≡ set.fill_word number) →
        next (record set { fill_word = other }) state step word ≡ next set state step word }
    ensures rise { (set : Setting) (state : Flat) (acts : List Act) →
        state.shared.drawn ≤ (run_from set state acts).shared.drawn }
{}
