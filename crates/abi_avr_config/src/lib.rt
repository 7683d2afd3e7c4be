// An AVR configuration as a host holds it.
#![tactic(auto)]

ghost use Rattle.std.specs.Prelude.{◌≡◌};
ghost use Rattle.abi_avr_config.specs.State.{avr_config_step_in, avr_config_step_out, avr_config_in, avr_config_out};

use abi::config::CSettings;
use abi_values::UnknownNumber;
use avr_config::AvrConfigSequencer;
use avr_config_steps::AvrConfigStep;

// A step by number, since C takes no enum. `param_idx` belongs to steps 1 and 2, and is 0 at any other.
#[repr(C)]
#[derive(Clone, Copy)]
pub struct CAvrConfigStep {
    pub number: u8,
    pub param_idx: usize,
}

#[repr(C)]
#[derive(Clone, Copy)]
pub struct CAvrConfig {
    pub step: CAvrConfigStep,
    pub settings: CSettings,
}

impl TryFrom<CAvrConfigStep> for AvrConfigStep {
    type Error = UnknownNumber;

    ghost try_from_gives = { λ c r. r ≡ avr_config_step_in c };

    fn try_from(c: CAvrConfigStep) -> Result<AvrConfigStep, UnknownNumber> {
        let param_idx = c.param_idx;
        match c.number {
            0 => Ok(AvrConfigStep::WaitInitGateAck),
            1 => Ok(AvrConfigStep::WaitParamAck { param_idx }),
            2 => Ok(AvrConfigStep::WaitParamCommitAck { param_idx }),
            3 => Ok(AvrConfigStep::WaitModeEcho),
            4 => Ok(AvrConfigStep::WaitModeCommitAck),
            5 => Ok(AvrConfigStep::WaitRadarCalEcho),
            6 => Ok(AvrConfigStep::WaitRadarCalCommitAck),
            7 => Ok(AvrConfigStep::Done),
            _ => Err(UnknownNumber),
        }
    }
}

fn numbered(number: u8, param_idx: usize) -> CAvrConfigStep
    ensures { result ≡ record { number = number; param_idx = param_idx } }
{
    CAvrConfigStep { number, param_idx }
}

impl From<AvrConfigStep> for CAvrConfigStep {
    ghost from_gives = { λ step r. r ≡ avr_config_step_out step };

    fn from(step: AvrConfigStep) -> CAvrConfigStep {
        match step {
            AvrConfigStep::WaitInitGateAck => numbered(0, 0),
            AvrConfigStep::WaitParamAck { param_idx } => numbered(1, param_idx),
            AvrConfigStep::WaitParamCommitAck { param_idx } => numbered(2, param_idx),
            AvrConfigStep::WaitModeEcho => numbered(3, 0),
            AvrConfigStep::WaitModeCommitAck => numbered(4, 0),
            AvrConfigStep::WaitRadarCalEcho => numbered(5, 0),
            AvrConfigStep::WaitRadarCalCommitAck => numbered(6, 0),
            AvrConfigStep::Done => numbered(7, 0),
        }
    }
}

impl TryFrom<CAvrConfig> for AvrConfigSequencer {
    type Error = UnknownNumber;

    ghost try_from_gives = { λ c r. r ≡ avr_config_in c };

    fn try_from(c: CAvrConfig) -> Result<AvrConfigSequencer, UnknownNumber> {
        Ok(AvrConfigSequencer {
            step: c.step.try_into()?,
            settings: c.settings.try_into()?,
        })
    }
}

impl From<AvrConfigSequencer> for CAvrConfig {
    ghost from_gives = { λ seq r. r ≡ avr_config_out seq };

    fn from(seq: AvrConfigSequencer) -> CAvrConfig {
        CAvrConfig {
            step: seq.step.into(),
            settings: seq.settings.into(),
        }
    }
}
