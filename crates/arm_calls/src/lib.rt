// The calls of an arm, and what they answer.
#![tactic(auto)]

use arm::ArmSequencer;
use arm_steps::ArmStep;
use device::model::DeviceModel;
use reading::{Calls, Feed};
use std::io::Write;
use std::{fmt, io};
use streams::answers::Text;
use streams::running::{FEED_ALONE, Sequence, Steps, feed_by};

#[derive(Clone, Copy)]
pub struct ArmCalls {
    arm: ArmSequencer,
}

// A step as it is written: its name, with its fields.
#[derive(Clone, Copy)]
pub struct Step(ArmStep);

impl fmt::Display for Step {
    fn fmt<W: fmt::Write>(&self, f: &mut fmt::Formatter<W>) -> fmt::Result {
        f.write_str(match self.0 {
            ArmStep::WaitDspStatus => "WaitDspStatus",
            ArmStep::WaitAvrStatus => "WaitAvrStatus",
            ArmStep::WaitArmAck => "WaitArmAck",
            ArmStep::WaitPiAndArmed { got_pi, got_armed } => {
                return write!(f, "WaitPiAndArmed got_pi={got_pi} got_armed={got_armed}");
            }
            ArmStep::Done => "Done",
        })
    }
}

impl ArmCalls {
    // An arm that begins.
    #[inline(never)]
    pub fn begin(model: Option<DeviceModel>, out: &mut Text) -> io::Result<ArmCalls> {
        let started = match model {
            Some(model) => ArmSequencer::new_for(model),
            None => ArmSequencer::new(),
        };
        let calls = ArmCalls { arm: started.seq };
        calls.begun(&started.outcome, out)
    }
}

impl Steps for ArmCalls {
    type Sequencer = ArmSequencer;

    type Step = Step;

    fn sequencer(&mut self) -> &mut ArmSequencer {
        &mut self.arm
    }

    fn step(&self) -> Step {
        Step(self.arm.step)
    }

    fn entry(&self) -> Option<usize> {
        None
    }
}

impl Sequence for ArmCalls {
    const CALLS: Option<Calls> = Some(Calls {
        retries: true,
        ..FEED_ALONE
    });

    #[inline(never)]
    fn feed(&mut self, feed: &Feed<'_>, out: &mut Text) -> io::Result<()> {
        feed_by(self, feed, ArmSequencer::feed, out)
    }

    fn retries(&self, out: &mut Text) -> io::Result<()> {
        let retries = self.arm.retries();
        write!(out, "{retries}")
    }

    fn state(&self, out: &mut Text) -> io::Result<()> {
        let (retries, wait_pi) = (self.arm.retries, self.arm.wait_pi);
        write!(out, " retries={retries} wait_pi={wait_pi}")
    }
}
