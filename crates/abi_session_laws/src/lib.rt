// What crosses to a host and comes back is what it was, of a session. Nothing here runs.
#![tactic(auto)]

ghost use Rattle.abi_session_laws.specs.Theorem.{Back};

/// A session that goes to a host and comes back is what it was.
pub fn session_back()
    ensures { Back }
{}
