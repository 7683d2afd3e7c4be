// AVR configuration (src/seq.rs, "Phase 4 — AvrConfigSequencer") as a pollable state machine by value: `feed` takes a decoded envelope
// and answers with at most one command to send. It has no clock. What an accepted envelope does is crate avr_config_steps's.
#![tactic(auto)]

ghost use Rattle.std.specs.Prelude.{◌≡◌, []};
ghost use Rattle.avr_config_steps.specs.declared.AvrConfigStep.{AvrConfigStep};
ghost use Rattle.protocol.specs.Refusals.{outcome, lowest};
ghost use Rattle.avr_config.specs.Answers.{begun, fed_to, settings_refusals};
ghost use Rattle.avr_config.specs.Starts.{LowestGiven, MevoBegins};

use avr_config_steps::AvrConfigStep;
use protocol::{BusAddr, Message, Refusal};
use requests::avr_config_cmd;
use sequence::Answer;
use settings::{AvrSettings, MAX_PARAMS};

#[derive(Clone, Copy)]
pub struct AvrConfigSequencer {
    pub step: AvrConfigStep,
    pub settings: AvrSettings,
}

// Why these settings are not run, if they are not.
fn accept_settings(settings: AvrSettings) -> Result<(), Refusal>
    ensures { result ≡ outcome (lowest (settings_refusals settings)) }
{
    if MAX_PARAMS < settings.len {
        return Err(Refusal::TooManyParams);
    }
    if settings.has_repeat() {
        return Err(Refusal::RepeatedParam);
    }
    Ok(())
}

impl AvrConfigSequencer {
    // At its first step.
    fn with(settings: AvrSettings) -> AvrConfigSequencer
        ensures { result ≡ record { step = AvrConfigStep.WaitInitGateAck; settings = settings } }
    {
        AvrConfigSequencer {
            step: AvrConfigStep::WaitInitGateAck,
            settings,
        }
    }

    /// Refused with 4 where the settings have more than 32 parameters, and with 6 where an id occurs twice among those that count. Beside a
    /// refusal stands a run with mode 0, no parameters and no calibration. (src/seq.rs refuses neither.)
    pub fn new(settings: AvrSettings) -> Answer<AvrConfigSequencer>
        ensures { result ≡ begun settings }
    {
        if let Err(refusal) = accept_settings(settings) {
            let none = AvrConfigSequencer::with(AvrSettings::mode_only(0));
            return Answer::refused(refusal, none);
        }
        let run = AvrConfigSequencer::with(settings.kept());
        Answer::accepted(Some(avr_config_cmd(false)), run)
    }

    // Only what comes from the AVR is looked at.
    // Numbers and slices one by one, as the scope has it; the struct that refers to them is crate envelope's.
    pub fn feed(
        self,
        src: BusAddr,
        type_id: u8,
        message: Message,
        text: &[u8],
        payload: &[u8],
    ) -> Answer<AvrConfigSequencer>
        ensures { result ≡ fed_to self (record { src = src; type_id = type_id; message = message; params = []; text = text.now; payload = payload.now }) }
    {
        if let Err(refusal) = sequence::accept_bytes(text, payload) {
            return Answer::refused(refusal, self);
        }
        let BusAddr::Avr = src else {
            return Answer::accepted(None, self);
        };
        let moved = avr_config_steps::feed(self.settings, self.step, message);
        Answer::accepted(
            moved.action,
            AvrConfigSequencer {
                step: moved.state,
                ..self
            },
        )
    }
}

/// Of the numbers that apply to a start the lowest is given, and none where none applies.
pub fn lowest_number()
    ensures { LowestGiven }
{}

/// A settings run of a Mevo's settings begins: no such start is refused.
pub fn mevo_begins()
    ensures { MevoBegins }
{}
