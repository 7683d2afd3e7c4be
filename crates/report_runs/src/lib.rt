// What a report tells, after every list of start-ups. Nothing here runs.
#![tactic(auto)]

ghost use Rattle.report_runs.specs.Theorem.{Theorem};

/// A report of any sequence and model, after every list of start-ups that `new` and any calls have made: each of its figures is what a
/// definition over the list of those taken says, and the waits over all tick numbers add up to the summed time. A start-up's ticks are those
/// of its earliest ticking so far, and their readings rise.
pub fn right_figures()
    ensures { Theorem }
{}
