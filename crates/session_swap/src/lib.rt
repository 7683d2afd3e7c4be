// Two neighbouring feeds of a session change places. Nothing here runs.
#![tactic(auto)]

ghost use Rattle.session_swap.specs.Swap.{Swap};

/// Once a session's DSP is done, two neighbouring feeds from different sources, at one reading, can change places: the state after both is
/// the same, each feed is answered the same, and so the sends to each device are the same. Of the wall seconds nothing is asked.
pub fn feeds_swap()
    ensures { Swap }
{}
