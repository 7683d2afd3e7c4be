// The promise of a session, over every list of its calls: by that of its DSP, its AVR and its Pi. Nothing here runs.
#![tactic(auto)]

ghost use Rattle.session_promise.specs.Ticking as ticking;
ghost use Rattle.session_promise.specs.Whole as whole;
ghost use Rattle.session_promise.specs.Taking as taking;
ghost use Rattle.session_promise.specs.Sheets as sheets;

/// Each sequence of a session is done exactly when its table is ticked off over the part of the session's run since its start: the DSP's over
/// all of it, the AVR's and the Pi's over what comes after the place that ends the DSP's earliest ticking.
pub fn each_ticked_off()
    ensures { ticking.Theorem }
{}

/// A session is done exactly when all the tables that its model has are so ticked off. A result is refused with 12 before that, and is then
/// theirs, by the earliest tickings.
pub fn done_together()
    ensures { whole.Theorem }
{}

/// The nack that a DSP keeps is taken through the session once, as from the DSP itself.
pub fn nack_taken()
    ensures { taking.Theorem }
{}

/// Each sheet that is asked of a session is that of the sequence's earliest ticking so far, and is empty before the sequence begins.
pub fn sheets_so_far()
    ensures { sheets.Theorem }
{}
