// What a Pi start-up shows doesn't depend on the network texts that come in. Nothing here runs.
#![tactic(auto)]

ghost use Rattle.pi_shown.specs.Theorem.{Theorem};

/// The Wi-Fi password stays out of what a Pi start-up shows. Two lists of calls that are the same but for the texts of network replies, of
/// at most 256 bytes each, show the same at every call: what is sent or refused, the step, the sheet, and all of the result but the name
/// of the network, its password and the lengths of these two.
pub fn network_stays_out()
    ensures { Theorem }
{}
