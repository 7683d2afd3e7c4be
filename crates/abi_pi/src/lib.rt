// A Pi start-up as a host holds it.
#![tactic(auto)]

ghost use Rattle.std.specs.Prelude.{◌≡◌};
ghost use Rattle.abi_pi.specs.State.{replies_in, replies_out, pi_step_in, pi_step_out, pi_in, pi_out};

use abi_sheet::CTicks;
use abi_values::UnknownNumber;
use abi_values::options::COptionDevInfoResp;
use pi::PiSequencer;
use pi_table::{PiReplies, PiStep};
use protocol::{CamConfig, Stored};

// C takes no `Option`.
#[repr(C)]
#[derive(Clone, Copy)]
pub struct COptionCamConfig {
    pub some: bool,
    pub value: CamConfig,
}

#[repr(C)]
#[derive(Clone, Copy)]
pub struct CPiReplies {
    pub dev_info: COptionDevInfoResp,
    pub cam_config: COptionCamConfig,
    pub ssid: Stored,
    pub password: Stored,
}

// A step by number, since C takes no enum. `idx` belongs to step 7, and is 0 at any other.
#[repr(C)]
#[derive(Clone, Copy)]
pub struct CPiStep {
    pub number: u8,
    pub idx: usize,
}

#[repr(C)]
#[derive(Clone, Copy)]
pub struct CPi {
    pub step: CPiStep,
    pub replies: CPiReplies,
    pub ticks: CTicks,
}

impl From<CPiReplies> for PiReplies {
    ghost from_gives = { λ c r. r ≡ replies_in c };

    fn from(c: CPiReplies) -> PiReplies {
        PiReplies {
            dev_info: c.dev_info.into(),
            cam_config: c.cam_config.some.then_some(c.cam_config.value),
            ssid: c.ssid,
            password: c.password,
        }
    }
}

impl From<PiReplies> for CPiReplies {
    ghost from_gives = { λ replies r. r ≡ replies_out replies };

    fn from(replies: PiReplies) -> CPiReplies {
        CPiReplies {
            dev_info: replies.dev_info.into(),
            cam_config: COptionCamConfig {
                some: replies.cam_config.is_some(),
                value: replies.cam_config.unwrap_or(CamConfig::none()),
            },
            ssid: replies.ssid,
            password: replies.password,
        }
    }
}

impl TryFrom<CPiStep> for PiStep {
    type Error = UnknownNumber;

    ghost try_from_gives = { λ c r. r ≡ pi_step_in c };

    fn try_from(c: CPiStep) -> Result<PiStep, UnknownNumber> {
        match c.number {
            0 => Ok(PiStep::WaitStatus),
            1 => Ok(PiStep::WaitDevInfo),
            2 => Ok(PiStep::WaitParam0A),
            3 => Ok(PiStep::WaitCamConfig1),
            4 => Ok(PiStep::WaitCamConfig2),
            5 => Ok(PiStep::WaitNetConfig),
            6 => Ok(PiStep::WaitNetConfigPw),
            7 => Ok(PiStep::WaitParams { idx: c.idx }),
            8 => Ok(PiStep::Done),
            _ => Err(UnknownNumber),
        }
    }
}

fn numbered(number: u8, idx: usize) -> CPiStep
    ensures { result ≡ record { number = number; idx = idx } }
{
    CPiStep { number, idx }
}

impl From<PiStep> for CPiStep {
    ghost from_gives = { λ step r. r ≡ pi_step_out step };

    fn from(step: PiStep) -> CPiStep {
        match step {
            PiStep::WaitStatus => numbered(0, 0),
            PiStep::WaitDevInfo => numbered(1, 0),
            PiStep::WaitParam0A => numbered(2, 0),
            PiStep::WaitCamConfig1 => numbered(3, 0),
            PiStep::WaitCamConfig2 => numbered(4, 0),
            PiStep::WaitNetConfig => numbered(5, 0),
            PiStep::WaitNetConfigPw => numbered(6, 0),
            PiStep::WaitParams { idx } => numbered(7, idx),
            PiStep::Done => numbered(8, 0),
        }
    }
}

impl TryFrom<CPi> for PiSequencer {
    type Error = UnknownNumber;

    ghost try_from_gives = { λ c r. r ≡ pi_in c };

    fn try_from(c: CPi) -> Result<PiSequencer, UnknownNumber> {
        Ok(PiSequencer {
            step: c.step.try_into()?,
            replies: c.replies.into(),
            ticks: c.ticks.try_into()?,
        })
    }
}

impl From<PiSequencer> for CPi {
    ghost from_gives = { λ seq r. r ≡ pi_out seq };

    fn from(seq: PiSequencer) -> CPi {
        CPi {
            step: seq.step.into(),
            replies: seq.replies.into(),
            ticks: seq.ticks.into(),
        }
    }
}
