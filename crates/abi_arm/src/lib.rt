// An arm as a host holds it.
#![tactic(auto)]

ghost use Rattle.std.specs.Prelude.{◌≡◌, false};
ghost use Rattle.abi_arm.specs.State.{arm_step_in, arm_step_out, arm_in, arm_out};

use abi_values::UnknownNumber;
use arm::ArmSequencer;
use arm_steps::ArmStep;

// A step by number, since C takes no enum. `got_pi` and `got_armed` belong to step 3, and are false at any other.
#[repr(C)]
#[derive(Clone, Copy)]
pub struct CArmStep {
    pub number: u8,
    pub got_pi: bool,
    pub got_armed: bool,
}

#[repr(C)]
#[derive(Clone, Copy)]
pub struct CArm {
    pub step: CArmStep,
    pub retries: u16,
    pub wait_pi: bool,
}

impl TryFrom<CArmStep> for ArmStep {
    type Error = UnknownNumber;

    ghost try_from_gives = { λ c r. r ≡ arm_step_in c };

    fn try_from(c: CArmStep) -> Result<ArmStep, UnknownNumber> {
        match c.number {
            0 => Ok(ArmStep::WaitDspStatus),
            1 => Ok(ArmStep::WaitAvrStatus),
            2 => Ok(ArmStep::WaitArmAck),
            3 => Ok(ArmStep::WaitPiAndArmed {
                got_pi: c.got_pi,
                got_armed: c.got_armed,
            }),
            4 => Ok(ArmStep::Done),
            _ => Err(UnknownNumber),
        }
    }
}

fn plain(number: u8) -> CArmStep
    ensures { result ≡ record { number = number; got_pi = false; got_armed = false } }
{
    CArmStep {
        number,
        got_pi: false,
        got_armed: false,
    }
}

impl From<ArmStep> for CArmStep {
    ghost from_gives = { λ step r. r ≡ arm_step_out step };

    fn from(step: ArmStep) -> CArmStep {
        match step {
            ArmStep::WaitDspStatus => plain(0),
            ArmStep::WaitAvrStatus => plain(1),
            ArmStep::WaitArmAck => plain(2),
            ArmStep::WaitPiAndArmed { got_pi, got_armed } => CArmStep {
                number: 3,
                got_pi,
                got_armed,
            },
            ArmStep::Done => plain(4),
        }
    }
}

impl TryFrom<CArm> for ArmSequencer {
    type Error = UnknownNumber;

    ghost try_from_gives = { λ c r. r ≡ arm_in c };

    fn try_from(c: CArm) -> Result<ArmSequencer, UnknownNumber> {
        Ok(ArmSequencer {
            step: c.step.try_into()?,
            retries: c.retries,
            wait_pi: c.wait_pi,
        })
    }
}

impl From<ArmSequencer> for CArm {
    ghost from_gives = { λ seq r. r ≡ arm_out seq };

    fn from(seq: ArmSequencer) -> CArm {
        CArm {
            step: seq.step.into(),
            retries: seq.retries,
            wait_pi: seq.wait_pi,
        }
    }
}
