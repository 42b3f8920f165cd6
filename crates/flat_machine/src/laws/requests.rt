//! What is so of the requests of every run.

ghost use Rattle.std.specs.Prelude.{◌≡◌, ◌<◌, ◌≤◌, ◌*◌, ◌+◌, false, List, ℕ, Some, length, map};
ghost use Rattle.std.specs.List.{range_with_len};
ghost use Rattle.pad_words.specs.declared.numbers.Session.{Session};
ghost use Rattle.pad_steps.specs.declared.steps.DiskWord.{DiskWord};
ghost use Rattle.pad_steps.specs.declared.steps.Step.{Step};
ghost use Rattle.flat_machine.specs.Kept.{Kept, kept_next};
ghost use Rattle.request_queue.specs.Requests.{pending_count};
ghost use Rattle.flat_machine.specs.Settings.{Setting};
ghost use Rattle.flat_machine.specs.State.{Flat, is_off};
ghost use Rattle.flat_machine.specs.Machine.{Act, next, next_work, run_from};
ghost use Rattle.flat_machine.specs.Facts.{IsStart};
ghost use Rattle.flat_machine.specs.RequestFacts.{draws, row_id, in_work, of_id, work_left, endings_told, endings_kept, KeepsEnded, IsBelowFloor, no_such_request};
ghost use Rattle.flat_machine.specs.EveryRun.{AtEveryStep, InEveryRun, after_step};
ghost use Rattle.pad_steps.specs.declared.answers.Out.TheVariants as out;
ghost use Rattle.pad_steps.specs.declared.answers.Told.TheVariants as told;
ghost use Rattle.pad_steps.specs.declared.steps.Question.TheVariants as questions;
ghost use Rattle.pad_steps.specs.declared.steps.Step.TheVariants as steps;

/// At most one request is in work.
pub fn one_in_work()
    ensures { InEveryRun (λ set state. length (in_work state.shared.requests) ≤ 1) }
{}

/// Ids rise by one from 1: none is drawn twice, and none is left out.
pub fn ids_count_up()
    ensures { InEveryRun (λ set state. map row_id state.shared.requests ≡ range_with_len 1 (length state.shared.requests)) }
{}

/// A request that ended stays ended, with the same reply, whatever comes after.
pub fn replies_stay()
    ensures { (set : Setting) (state : Flat) (acts : List Act) → KeepsEnded state (run_from set state acts) }
{}

/// Each request that ended was told its end once, by its session and with the reply that is kept; no other end is told.
pub fn one_reply()
    ensures told { (set : Setting) (start : Flat) (acts : List Act) (id : ℕ) → IsStart start →
        of_id id (endings_told set start acts) ≡ of_id id (endings_kept (run_from set start acts)) }
    ensures once { (set : Setting) (start : Flat) (acts : List Act) (id : ℕ) → IsStart start →
        length (of_id id (endings_kept (run_from set start acts))) ≤ 1 }
{}

/// At most 16 requests of a session are pending.
pub fn queue_bound()
    ensures { (set : Setting) (start : Flat) (acts : List Act) (session : Session) → IsStart start →
        pending_count session (run_from set start acts).shared.requests ≤ 16 }
{}

/// A session sees no request at or below its floor: to Cancel and to Ask such an id is none of its own.
pub fn floor_hides()
    ensures cancel { (set : Setting) (state : Flat) (session : Session) (id : ℕ) (word : DiskWord) → 0 < id →
        IsBelowFloor state session id → next set state (steps.Cancel session id) word ≡ no_such_request state session }
    ensures ask { (set : Setting) (state : Flat) (session : Session) (id : ℕ) (word : DiskWord) →
        IsBelowFloor state session id → next set state (steps.Ask session (questions.Reply id)) word ≡ no_such_request state session }
{}

/// What is due comes to an end: a step that is due leaves less to do, whatever its word; and Submit draws one id at most, no
/// other step any.
pub fn due_steps_come_to_an_end()
    ensures less { (set : Setting) (kept : Kept) (step : Step) (word : DiskWord) →
        is_off kept.shared.device ≡ false → next_work kept.shared ≡ Some step →
        work_left (kept_next set kept step word).state.shared.requests < work_left kept.shared.requests }
    ensures ids { (set : Setting) (kept : Kept) (step : Step) (word : DiskWord) →
        length (kept_next set kept step word).state.shared.requests ≤ length kept.shared.requests + draws step }
{}

/// The work that is left in a run: a step that is due leaves less, no step leaves more than two steps of work for each id that
/// it may draw, and no other ids are drawn.
pub fn due_work_runs_out()
    ensures less { InEveryRun (λ set state. (step : Step) (word : DiskWord) → next_work state.shared ≡ Some step →
        work_left (after_step set state step word).shared.requests < work_left state.shared.requests) }
    ensures more { AtEveryStep (λ set state step word.
        work_left (after_step set state step word).shared.requests ≤ work_left state.shared.requests + 2 * draws step) }
    ensures ids { AtEveryStep (λ set state step word.
        length (after_step set state step word).shared.requests ≤ length state.shared.requests + draws step) }
{}
