//! Laws of the rows, for callers. Each is a function with nothing to do, called for its clauses.
ghost use Rattle.request_queue.specs.Laws.{EligibleIsBegun, EligibleIsRefused, FirstEnds, IdsStayAtBegin, IdsStayAtEnd, NoneIsLeft, OneLessIsLeft, PendsOrEnded, WorkIsFinished};

/// What the next request comes to: to begin it by its id is to begin it as Begin does, and to finish it by its id is to
/// refuse it as it is taken.
pub fn next_by_id<C, R>()
    ensures begun { EligibleIsBegun C R }
    ensures refused { EligibleIsRefused C R }
{}

/// To finish the request in work by its id is to finish it as Finish does.
pub fn in_work_by_id<C, R>()
    ensures { WorkIsFinished C R }
{}

/// A loop that finishes the first pending request that passes a test, until there is none, ends all that pass. What is
/// left to end comes to the same after each step, which is the loop's invariant (`ended_where test reply` of the rows is
/// that of the rows at its start); one less is left, which is its measure; and where none is left all have ended.
pub fn one_after_another<C, R>()
    ensures step { FirstEnds C R }
    ensures less { OneLessIsLeft C R }
    ensures done { NoneIsLeft C R }
{}

/// The row with id i stands at place i - 1 also after requests ended, and after one came into work.
pub fn ids_stay<C, R>()
    ensures ended { IdsStayAtEnd C R }
    ensures begun { IdsStayAtBegin C R }
{}

/// Each request is pending, or it ended.
pub fn pending_or_ended<C, R>()
    ensures { PendsOrEnded C R }
{}
