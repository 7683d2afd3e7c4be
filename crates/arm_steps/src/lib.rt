// What an arm does with an envelope, step by step (src/seq.rs, "Phase 6 — ArmSequencer"). Its calls, with their refusals and the count
// of nacks, are crate arm's.
#![tactic(auto)]

pub mod armed;

ghost use Rattle.std.specs.Prelude.{◌≡◌, false, []};
ghost use Rattle.protocol.specs.declared.BusAddr.{BusAddr};
ghost use Rattle.sequence.specs.Events.{plain};
ghost use Rattle.arm_steps.specs.declared.ArmStep.{ArmStep};
ghost use Rattle.arm_steps.specs.Answers.{is_armed, send, no_send, moved_at};

use armed::says_armed;
use device::search::find;
use protocol::{Action, BusAddr, Message};
use requests::{avr_config_cmd, status_poll};

#[derive(Clone, Copy, PartialEq, Eq)]
pub enum ArmStep {
    WaitDspStatus,
    WaitAvrStatus,
    WaitArmAck,
    // the Pi's status and the armed text, in either order
    WaitPiAndArmed { got_pi: bool, got_armed: bool },
    Done,
}

// What an envelope does. It is no `Moved`, since what is to be counted belongs to it.
#[derive(Clone, Copy)]
pub struct ArmMoved {
    pub action: Option<Action>,
    pub step: ArmStep,
    // the unit refused: one more is to be counted
    pub nacked: bool,
}

// Whether a text says that the unit is armed.
fn is_armed(text: &[u8]) -> bool
    ensures { result ≡ is_armed text.now }
{
    says_armed(text) && find(text, b"CANCELLED").is_none()
}

// A send, and the step that it begins.
fn send(action: Action, step: ArmStep) -> ArmMoved
    ensures { result ≡ send action step }
{
    ArmMoved {
        action: Some(action),
        step,
        nacked: false,
    }
}

// Nothing is sent.
fn no_send(step: ArmStep) -> ArmMoved
    ensures { result ≡ no_send step }
{
    ArmMoved {
        action: None,
        step,
        nacked: false,
    }
}

fn wait_arm_ack(wait_pi: bool, src: BusAddr, message: Message) -> ArmMoved
    ensures { result ≡ moved_at ArmStep.WaitArmAck wait_pi (plain src message []) }
{
    let BusAddr::Avr = src else {
        return no_send(ArmStep::WaitArmAck);
    };
    match message {
        // the unit refused
        Message::ConfigNack(_) => ArmMoved {
            action: Some(status_poll(false, BusAddr::Dsp)),
            step: ArmStep::WaitDspStatus,
            nacked: true,
        },
        // the unit took it
        Message::ConfigAck(_) => {
            let step = ArmStep::WaitPiAndArmed {
                got_pi: !wait_pi,
                got_armed: false,
            };
            if wait_pi {
                return send(status_poll(true, BusAddr::Pi), step);
            }
            no_send(step)
        }
        _ => no_send(ArmStep::WaitArmAck),
    }
}

// Done once both have come.
fn wait_pi_and_armed(got_pi: bool, got_armed: bool, message: Message, text: &[u8]) -> ArmMoved
    ensures { result ≡ moved_at (ArmStep.WaitPiAndArmed got_pi got_armed) false (plain BusAddr.App message text.now) }
{
    let (got_pi, got_armed) = match message {
        Message::PiStatus => (true, got_armed),
        Message::Text => (got_pi, got_armed || is_armed(text)),
        _ => (got_pi, got_armed),
    };
    if got_pi && got_armed {
        return no_send(ArmStep::Done);
    }
    no_send(ArmStep::WaitPiAndArmed { got_pi, got_armed })
}

// A feed to which neither refusal 1 nor 2 applies; its parameters one by one, as the sequencer's feed has them.
pub fn feed(step: ArmStep, wait_pi: bool, src: BusAddr, message: Message, text: &[u8]) -> ArmMoved
    ensures { result ≡ moved_at step wait_pi (plain src message text.now) }
{
    // a `match`, and no closure kept for the step: a host holds the step as a number, and each takes arguments of its own
    match step {
        ArmStep::WaitDspStatus => {
            if let (BusAddr::Dsp, Message::DspStatus(_)) = (src, message) {
                return send(status_poll(false, BusAddr::Avr), ArmStep::WaitAvrStatus);
            }
        }
        ArmStep::WaitAvrStatus => {
            if let (BusAddr::Avr, Message::AvrStatus(_)) = (src, message) {
                return send(avr_config_cmd(true), ArmStep::WaitArmAck);
            }
        }
        ArmStep::WaitArmAck => return wait_arm_ack(wait_pi, src, message),
        ArmStep::WaitPiAndArmed { got_pi, got_armed } => {
            return wait_pi_and_armed(got_pi, got_armed, message, text);
        }
        ArmStep::Done => {}
    }
    no_send(step)
}
