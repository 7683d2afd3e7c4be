// The host's library: every call of the six sequences and of the session, the model and the single sends, as functions that C or Rust can link
// (`rt lib`). Each answers as the call that it stands for; numbers that no case has are refused with 21. A refused call sends nothing, and
// gives back the very state that it was handed.
#![tactic(auto)]

ghost use Rattle.host.specs.Law.{NothingBeside};

mod absent;
mod c_arm;
mod c_avr;
mod c_avr_config;
mod c_disarm;
mod c_dsp;
mod c_pi;
mod c_session;
mod fed;
mod sends;
mod written;

// A number that no case has: a kind, a device, a step, a layout, a format, how an entry was ticked or a start-up.
const UNKNOWN: u8 = 21;

/// Where nothing stands beside an absent record, each call tells what the call that it stands for answers, and no more. So it is of what the
/// library writes, and by that of every state that calls made, from a new one on.
pub fn nothing_beside()
    ensures { NothingBeside }
{}
