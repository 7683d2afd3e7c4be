// Arm (src/seq.rs, "Phase 6 — ArmSequencer") as a pollable state machine by value: `feed` takes a decoded envelope and answers with at
// most one command to send. It has no clock. A nack leads back to the beginning, and is counted here; what each step does is crate
// arm_steps'.
#![tactic(auto)]

ghost use Rattle.std.specs.Prelude.{◌≡◌, []};
ghost use Rattle.device.specs.Model.{mevo};
ghost use Rattle.arm.specs.Answers.{begun, counted, fed_to};
ghost use Rattle.arm.specs.Lowest.{Theorem};

use arm_steps::{ArmMoved, ArmStep};
use device::model::DeviceModel;
use protocol::{BusAddr, Message, Refusal};
use requests::status_poll;
use sequence::Answer;

// The most nacks that are counted.
const MAX_RETRIES: u16 = 65_535;

#[derive(Clone, Copy, PartialEq, Eq)]
pub struct ArmSequencer {
    pub step: ArmStep,
    // the nacks so far
    pub retries: u16,
    // whether the Pi's status is waited for
    pub wait_pi: bool,
}

impl ArmSequencer {
    // A feed that the step has answered: a nack is counted.
    fn counted(self, moved: ArmMoved) -> Answer<ArmSequencer>
        ensures { result ≡ counted self moved }
    {
        let mut retries = self.retries;
        if moved.nacked {
            if retries == MAX_RETRIES {
                return Answer::refused(Refusal::RetriesFull, self);
            }
            retries += 1;
        }
        Answer::accepted(
            moved.action,
            ArmSequencer {
                step: moved.step,
                retries,
                ..self
            },
        )
    }

    // ---- the calls

    /// Takes a Mevo without asking: use `new_for(result.model)` with the model that the DSP's result names.
    pub fn new() -> Answer<ArmSequencer>
        ensures { result ≡ begun mevo }
    {
        ArmSequencer::new_for(DeviceModel::MEVO)
    }

    /// An arm of this model.
    pub fn new_for(model: DeviceModel) -> Answer<ArmSequencer>
        ensures { result ≡ begun model }
    {
        Answer::accepted(
            Some(status_poll(false, BusAddr::Dsp)),
            ArmSequencer {
                step: ArmStep::WaitDspStatus,
                retries: 0,
                wait_pi: model.has_camera(),
            },
        )
    }

    // Numbers and slices one by one, as the scope has it; the struct that refers to them is crate envelope's.
    pub fn feed(
        self,
        src: BusAddr,
        type_id: u8,
        message: Message,
        text: &[u8],
        payload: &[u8],
    ) -> Answer<ArmSequencer>
        ensures { result ≡ fed_to self (record { src = src; type_id = type_id; message = message; params = []; text = text.now; payload = payload.now }) }
    {
        match sequence::accept_bytes(text, payload) {
            Ok(()) => {
                let moved = arm_steps::feed(self.step, self.wait_pi, src, message, text);
                self.counted(moved)
            }
            Err(refusal) => Answer::refused(refusal, self),
        }
    }

    // The number of nacks so far.
    pub fn retries(self) -> u16
        ensures { result ≡ self.retries }
    {
        self.retries
    }
}

/// Of the numbers that apply to a feed the lowest is given, and none where none applies.
pub fn lowest_number()
    ensures { Theorem }
{}
