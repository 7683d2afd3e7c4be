// An AVR start-up as a host holds it.
#![tactic(auto)]

ghost use Rattle.std.specs.Prelude.{◌≡◌};
ghost use Rattle.abi_avr.specs.State.{stored_out, replies_in, replies_out, avr_step_in, avr_step_out, avr_in, avr_out};

use abi_sheet::CTicks;
use abi_values::UnknownNumber;
use abi_values::options::{COptionConfigResp, COptionDevInfoResp, COptionInstant};
use avr::AvrSequencer;
use avr_steps::AvrState;
use avr_table::{AvrReplies, AvrStep};
use device::model::DeviceModel;
use protocol::{AvrConfigResp, AvrStatus, CalDataResp, CalParamResp, Stored};

// C takes no `Option`.
#[repr(C)]
#[derive(Clone, Copy)]
pub struct COptionAvrStatus {
    pub some: bool,
    pub value: AvrStatus,
}

// The bytes of a `CalDataResp`, a `CalParamResp` or an `AvrConfigResp`. C takes no `Option`.
#[repr(C)]
#[derive(Clone, Copy)]
pub struct COptionStored {
    pub some: bool,
    pub value: Stored,
}

#[repr(C)]
#[derive(Clone, Copy)]
pub struct CAvrReplies {
    pub status: COptionAvrStatus,
    pub dev_info: COptionDevInfoResp,
    pub config: COptionConfigResp,
    pub factory_cal: COptionStored,
    pub if_cal: COptionStored,
    pub avr_config: COptionStored,
}

#[repr(C)]
#[derive(Clone, Copy)]
pub struct CAvr {
    pub step: u8,
    pub model: DeviceModel,
    pub replies: CAvrReplies,
    pub cal_deadline: COptionInstant,
    pub repoll_at: COptionInstant,
    pub last: u64,
    pub ticks: CTicks,
}

impl From<Option<Stored>> for COptionStored {
    ghost from_gives = { λ stored r. r ≡ stored_out stored };

    fn from(stored: Option<Stored>) -> COptionStored {
        COptionStored {
            some: stored.is_some(),
            value: stored.unwrap_or(Stored::empty()),
        }
    }
}

impl From<CAvrReplies> for AvrReplies {
    ghost from_gives = { λ c r. r ≡ replies_in c };

    fn from(c: CAvrReplies) -> AvrReplies {
        let factory_cal = CalDataResp {
            payload: c.factory_cal.value,
        };
        let if_cal = CalParamResp {
            payload: c.if_cal.value,
        };
        let avr_config = AvrConfigResp {
            payload: c.avr_config.value,
        };
        AvrReplies {
            status: c.status.some.then_some(c.status.value),
            dev_info: c.dev_info.into(),
            config: c.config.into(),
            factory_cal: c.factory_cal.some.then_some(factory_cal),
            if_cal: c.if_cal.some.then_some(if_cal),
            avr_config: c.avr_config.some.then_some(avr_config),
        }
    }
}

impl From<AvrReplies> for CAvrReplies {
    ghost from_gives = { λ replies r. r ≡ replies_out replies };

    fn from(replies: AvrReplies) -> CAvrReplies {
        CAvrReplies {
            status: COptionAvrStatus {
                some: replies.status.is_some(),
                value: replies.status.unwrap_or(AvrStatus::none()),
            },
            dev_info: replies.dev_info.into(),
            config: replies.config.into(),
            factory_cal: replies.factory_cal.map(|cal| cal.payload).into(),
            if_cal: replies.if_cal.map(|cal| cal.payload).into(),
            avr_config: replies.avr_config.map(|config| config.payload).into(),
        }
    }
}

// The steps by number, since C takes no enum. Functions, and no `TryFrom` and `From`: both types stand in crates below.
fn step_in(number: u8) -> Result<AvrStep, UnknownNumber>
    ensures { result ≡ avr_step_in number }
{
    match number {
        0 => Ok(AvrStep::WaitStatus1),
        1 => Ok(AvrStep::WaitStatus2),
        2 => Ok(AvrStep::WaitDevInfo1),
        3 => Ok(AvrStep::WaitDevInfo2),
        4 => Ok(AvrStep::WaitParam0C),
        5 => Ok(AvrStep::WaitParam0D),
        6 => Ok(AvrStep::WaitConfig),
        7 => Ok(AvrStep::WaitFactoryCal),
        8 => Ok(AvrStep::WaitIfCal),
        9 => Ok(AvrStep::WaitAvrConfig),
        10 => Ok(AvrStep::WaitParam64),
        11 => Ok(AvrStep::WaitTimeSync),
        12 => Ok(AvrStep::Done),
        _ => Err(UnknownNumber),
    }
}

fn step_out(step: AvrStep) -> u8
    ensures { result ≡ avr_step_out step }
{
    step as u8
}

impl TryFrom<CAvr> for AvrSequencer {
    type Error = UnknownNumber;

    ghost try_from_gives = { λ c r. r ≡ avr_in c };

    fn try_from(c: CAvr) -> Result<AvrSequencer, UnknownNumber> {
        let state = AvrState {
            step: step_in(c.step)?,
            model: c.model,
            replies: c.replies.into(),
            cal_deadline: c.cal_deadline.into(),
            repoll_at: c.repoll_at.into(),
        };
        Ok(AvrSequencer {
            state,
            last: c.last,
            ticks: c.ticks.try_into()?,
        })
    }
}

impl From<AvrSequencer> for CAvr {
    ghost from_gives = { λ seq r. r ≡ avr_out seq };

    fn from(seq: AvrSequencer) -> CAvr {
        CAvr {
            step: step_out(seq.state.step),
            model: seq.state.model,
            replies: seq.state.replies.into(),
            cal_deadline: seq.state.cal_deadline.into(),
            repoll_at: seq.state.repoll_at.into(),
            last: seq.last,
            ticks: seq.ticks.into(),
        }
    }
}
