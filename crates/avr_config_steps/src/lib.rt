// What a settings run does with an accepted envelope, step by step (src/seq.rs, "Phase 4 — AvrConfigSequencer"). Its calls, with their
// refusals, are crate avr_config's. The settings never change, so no answer here holds them.
#![tactic(auto)]

ghost use Rattle.std.specs.Prelude.{◌≡◌, true, [], ◌+◌, min, Some};
ghost use Rattle.protocol.specs.declared.BusAddr.{BusAddr};
ghost use Rattle.sequence.specs.Events.{fed, plain};
ghost use Rattle.avr_config_steps.specs.declared.AvrConfigStep.{AvrConfigStep};
ghost use Rattle.avr_config_steps.specs.Table.{commit, param_step, next, to_avr};
ghost use Rattle.avr_config_steps.specs.Answers.{advance, goes};

use protocol::{Action, BusAddr, Command, Message, ModeSet};
use requests::avr_config_cmd;
use sequence::Moved;
use settings::{AvrSettings, MAX_PARAMS};

#[derive(Clone, Copy, PartialEq, Eq)]
pub enum AvrConfigStep {
    WaitInitGateAck,
    WaitParamAck { param_idx: usize },
    WaitParamCommitAck { param_idx: usize },
    WaitModeEcho,
    WaitModeCommitAck,
    WaitRadarCalEcho,
    WaitRadarCalCommitAck,
    Done,
}

// A commit, and the step that it begins.
fn commit(state: AvrConfigStep) -> Moved<AvrConfigStep>
    ensures { result ≡ record { action = Some commit; state = state; ticked = true } }
{
    Moved {
        action: Some(avr_config_cmd(false)),
        state,
        ticked: true,
    }
}

// A setting, and the step that it begins.
fn send(command: Command, state: AvrConfigStep) -> Moved<AvrConfigStep>
    ensures { result ≡ record { action = Some (to_avr command); state = state; ticked = true } }
{
    Moved {
        action: Some(Action::send(command, BusAddr::Avr)),
        state,
        ticked: true,
    }
}

// The index after this one; past the last place it is all the same.
fn next_idx(param_idx: usize) -> usize
    ensures { result ≡ min 32 (param_idx + 1) }
{
    param_idx.min(MAX_PARAMS - 1) + 1
}

// The parameter at an index, or the mode after the last.
fn send_param(settings: AvrSettings, param_idx: usize) -> Moved<AvrConfigStep>
    ensures { result ≡ goes settings (param_step settings param_idx) }
{
    if param_idx < settings.len.min(MAX_PARAMS) {
        return send(
            Command::ParamValue(settings.params[param_idx]),
            AvrConfigStep::WaitParamAck { param_idx },
        );
    }
    let mode = ModeSet {
        mode: settings.mode,
    };
    send(Command::ModeSet(mode), AvrConfigStep::WaitModeEcho)
}

// The calibration, if there is one.
fn send_radar_cal(settings: AvrSettings) -> Moved<AvrConfigStep>
    ensures { result ≡ goes settings (next settings AvrConfigStep.WaitModeCommitAck) }
{
    match settings.radar_cal {
        Some(cal) => send(Command::RadarCal(cal), AvrConfigStep::WaitRadarCalEcho),
        None => Moved {
            action: None,
            state: AvrConfigStep::Done,
            ticked: true,
        },
    }
}

// An accepted envelope from the AVR.
pub fn feed(settings: AvrSettings, step: AvrConfigStep, message: Message) -> Moved<AvrConfigStep>
    ensures { result ≡ advance settings step (fed (plain BusAddr.Avr message []) 0) }
{
    // a `match`, and no closure kept for the step: a host holds the step as a number
    match (step, message) {
        (AvrConfigStep::WaitInitGateAck, Message::ConfigAck(_)) => send_param(settings, 0),
        (AvrConfigStep::WaitParamAck { param_idx }, Message::ConfigAck(_)) => {
            commit(AvrConfigStep::WaitParamCommitAck { param_idx })
        }
        (AvrConfigStep::WaitParamCommitAck { param_idx }, Message::ConfigAck(_)) => {
            send_param(settings, next_idx(param_idx))
        }
        (AvrConfigStep::WaitModeEcho, Message::ModeSet(_)) => {
            commit(AvrConfigStep::WaitModeCommitAck)
        }
        (AvrConfigStep::WaitModeCommitAck, Message::ConfigAck(_)) => send_radar_cal(settings),
        (AvrConfigStep::WaitRadarCalEcho, Message::RadarCal(_)) => {
            commit(AvrConfigStep::WaitRadarCalCommitAck)
        }
        (AvrConfigStep::WaitRadarCalCommitAck, Message::ConfigAck(_)) => Moved {
            action: None,
            state: AvrConfigStep::Done,
            ticked: true,
        },
        _ => Moved::idle(step),
    }
}
