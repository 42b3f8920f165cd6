//! What is so of the lock, of the order in which requests come into work, and of their ids.

ghost use Rattle.std.specs.Prelude.{◌≡◌, ◌∷◌, ℕ, IsTrue, List, None, Some, [], false, length, map};
ghost use Rattle.std.specs.List.{list_all, range_with_len};
ghost use Rattle.std.specs.List.Sorted.{IsStrictlyIncreasing};
ghost use Rattle.pad_words.specs.Numbers.{same_session};
ghost use Rattle.pad_words.specs.declared.numbers.Session.{Session};
ghost use Rattle.pad_steps.specs.declared.commands.Command.{Command};
ghost use Rattle.pad_steps.specs.declared.steps.DiskWord.{DiskWord};
ghost use Rattle.pad_steps.specs.declared.steps.Step.{Step};
ghost use Rattle.pad_steps.specs.declared.steps.Step.TheVariants as steps;
ghost use Rattle.device_lock.specs.LockLine.{holder_of};
ghost use Rattle.request_queue.specs.Requests.{request_in_work};
ghost use Rattle.request_queue.specs.declared.requests.Request.{Request};
ghost use Rattle.flat_machine.specs.declared.types.Owner.{Owner};
ghost use Rattle.flat_machine.specs.Settings.{Setting};
ghost use Rattle.flat_machine.specs.State.{Flat};
ghost use Rattle.flat_machine.specs.Machine.{Act, lines_from, next, run_from};
ghost use Rattle.flat_machine.specs.Facts.{IsStart, outs_of};
ghost use Rattle.flat_machine.specs.QueueFacts.{BothStand, IsBegun, IsRefusedSubmit, IsTaken, KeepsOrder, PassesLock, TakesTheLeast, brought_from, brought_into, ids_of, is_ahead, leaves_line, locks, owners_in, row_owner, stands_in, submits};

/// While a session holds the lock, a Submit of another is refused, and Begin takes no request of another.
pub fn lock_keeps_others_out()
    ensures submit { (set : Setting) (state : Flat) (session holder : Session) (limit : ℕ) (command : Command) (word : DiskWord) →
        holder_of state.shared.line ≡ Some holder → same_session holder session ≡ false →
        IsRefusedSubmit state session (next set state (steps.Submit session limit command) word) }
    ensures begin { (set : Setting) (state : Flat) (holder : Session) (word : DiskWord) (place : ℕ) (request : Request Command) →
        holder_of state.shared.line ≡ Some holder →
        IsTaken state.shared.requests (next set state steps.Begin word).state.shared.requests place request →
        IsTrue (same_session request.session holder) }
{}

/// A session holds the lock until its own Unlock or Close, through Off and cuts too. Then the line is those that waited, and the first of them is granted the lock. A lock that is free is taken by a Lock alone.
pub fn lock_goes_in_turn()
    ensures holder { (set : Setting) (state : Flat) (session : Session) (step : Step) (word : DiskWord) →
        holder_of state.shared.line ≡ Some session → leaves_line session state.shared.line step ≡ false →
        holder_of (next set state step word).state.shared.line ≡ Some session }
    ensures next { (set : Setting) (start : Flat) (acts : List Act) (step : Step) (word : DiskWord) →
        IsStart start → PassesLock (run_from set start acts) step (next set (run_from set start acts) step word) }
    ensures free { (set : Setting) (state : Flat) (session : Session) (step : Step) (word : DiskWord) →
        holder_of state.shared.line ≡ None →
        holder_of (next set state step word).state.shared.line ≡ Some session → IsTrue (locks session step) }
{}

/// A session stands in the line until it leaves, and two that stand in it keep their order.
pub fn line_keeps_its_order()
    ensures stands { (set : Setting) (state : Flat) (session : Session) (step : Step) (word : DiskWord) →
        IsTrue (stands_in session state.shared.line) → leaves_line session state.shared.line step ≡ false →
        IsTrue (stands_in session (next set state step word).state.shared.line) }
    ensures step { (set : Setting) (state : Flat) (first second : Session) (step : Step) (word : DiskWord) →
        KeepsOrder first second state.shared.line (next set state step word).state.shared.line }
    ensures run { (set : Setting) (state : Flat) (first second : Session) (acts : List Act) →
        IsTrue (is_ahead first second state.shared.line) → BothStand set state first second acts →
        IsTrue (is_ahead first second (run_from set state acts).shared.line) }
{}

/// Requests come into work by Begin alone, which takes the least id that may begin; so those of one session come into work in the order of their ids.
pub fn work_goes_by_ids()
    ensures begin { (set : Setting) (state : Flat) (step : Step) (word : DiskWord) (request : Request Command) →
        brought_into (request_in_work state.shared.requests) (request_in_work (next set state step word).state.shared.requests) ≡ request ∷ [] →
        IsBegun step state.shared.requests (next set state step word).state.shared.requests request }
    ensures least { (set : Setting) (start : Flat) (acts : List Act) (word : DiskWord) →
        IsStart start →
        TakesTheLeast (run_from set start acts) (next set (run_from set start acts) steps.Begin word).state.shared.requests }
    ensures order { (set : Setting) (start : Flat) (acts : List Act) (session : Session) →
        IsStart start → IsStrictlyIncreasing (ids_of session (brought_from set start acts)) }
{}

/// The ids told are 1, 2, 3 and so on, each to the session that submitted.
pub fn ids_are_told()
    ensures ids { (set : Setting) (start : Flat) (acts : List Act) →
        IsStart start →
        map (λ (owner : Owner). owner.id) (owners_in (outs_of (lines_from set start acts))) ≡ range_with_len 1 (length (run_from set start acts).shared.requests) }
    ensures owners { (set : Setting) (start : Flat) (acts : List Act) →
        IsStart start →
        owners_in (outs_of (lines_from set start acts)) ≡ map row_owner (run_from set start acts).shared.requests }
    ensures submitter { (set : Setting) (state : Flat) (step : Step) (word : DiskWord) →
        IsTrue (list_all (λ (owner : Owner). submits owner.session step) (owners_in (next set state step word).outs)) }
{}
