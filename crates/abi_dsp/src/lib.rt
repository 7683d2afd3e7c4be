// A DSP start-up as a host holds it.
#![tactic(auto)]

ghost use Rattle.std.specs.Prelude.{◌≡◌};
ghost use Rattle.abi_dsp.specs.State.{nack_in, nack_out, status_in, status_out, hw_info_in, hw_info_out, dsp_step_in, dsp_step_out, dsp_in, dsp_out};

use abi_messages::CDspStatus;
use abi_sheet::CTicks;
use abi_values::options::{COptionConfigResp, COptionDevInfoResp, COptionInstant};
use abi_values::{UnknownNumber, addr_in};
use dsp::DspSequencer;
use dsp_steps::DspState;
use dsp_table::{DspReplies, DspStatusReply, DspStep};
use protocol::{BusAddr, ConfigAck, DspQueryResp, Nack, ProdInfoResp, Stored};

// C takes no `Option`.
#[repr(C)]
#[derive(Clone, Copy)]
pub struct COptionNack {
    pub some: bool,
    pub src: u8,
    pub type_id: u8,
    pub nack: ConfigAck,
}

// C takes no `Option`.
#[repr(C)]
#[derive(Clone, Copy)]
pub struct COptionDspStatus {
    pub some: bool,
    pub value: CDspStatus,
    pub payload: Stored,
}

// C takes no `Option`.
#[repr(C)]
#[derive(Clone, Copy)]
pub struct COptionDspQueryResp {
    pub some: bool,
    pub value: DspQueryResp,
}

#[repr(C)]
#[derive(Clone, Copy)]
pub struct CDsp {
    pub step: u8,
    pub status: COptionDspStatus,
    pub hw_info: COptionDspQueryResp,
    pub dev_info: COptionDevInfoResp,
    pub prod_info: [ProdInfoResp; 3],
    pub config: COptionConfigResp,
    pub refused: COptionNack,
    pub power_mode_unanswered: bool,
    pub deadline: COptionInstant,
    pub last: u64,
    pub ticks: CTicks,
}

// The source is looked at whether there is a nack or not.
impl TryFrom<COptionNack> for Option<Nack> {
    type Error = UnknownNumber;

    ghost try_from_gives = { λ c r. r ≡ nack_in c };

    fn try_from(c: COptionNack) -> Result<Option<Nack>, UnknownNumber> {
        let nack = Nack {
            src: addr_in(c.src)?,
            type_id: c.type_id,
            nack: c.nack,
        };
        Ok(c.some.then_some(nack))
    }
}

impl From<Option<Nack>> for COptionNack {
    ghost from_gives = { λ nack r. r ≡ nack_out nack };

    fn from(nack: Option<Nack>) -> COptionNack {
        let none = Nack {
            src: BusAddr::App,
            type_id: 0,
            nack: ConfigAck {
                bus_addr: 0,
                acked_cmd: 0,
            },
        };
        let some = nack.is_some();
        let nack = nack.unwrap_or(none);
        COptionNack {
            some,
            src: nack.src.as_byte(),
            type_id: nack.type_id,
            nack: nack.nack,
        }
    }
}

// The layout is looked at whether there is a status or not.
impl TryFrom<COptionDspStatus> for Option<DspStatusReply> {
    type Error = UnknownNumber;

    ghost try_from_gives = { λ c r. r ≡ status_in c };

    fn try_from(c: COptionDspStatus) -> Result<Option<DspStatusReply>, UnknownNumber> {
        let reply = DspStatusReply {
            status: c.value.try_into()?,
            payload: c.payload,
        };
        Ok(c.some.then_some(reply))
    }
}

impl From<Option<DspStatusReply>> for COptionDspStatus {
    ghost from_gives = { λ reply r. r ≡ status_out reply };

    fn from(reply: Option<DspStatusReply>) -> COptionDspStatus {
        let some = reply.is_some();
        let reply = reply.unwrap_or(DspStatusReply::none());
        COptionDspStatus {
            some,
            value: reply.status.into(),
            payload: reply.payload,
        }
    }
}

impl From<COptionDspQueryResp> for Option<DspQueryResp> {
    ghost from_gives = { λ c r. r ≡ hw_info_in c };

    fn from(info: COptionDspQueryResp) -> Option<DspQueryResp> {
        info.some.then_some(info.value)
    }
}

impl From<Option<DspQueryResp>> for COptionDspQueryResp {
    ghost from_gives = { λ info r. r ≡ hw_info_out info };

    fn from(info: Option<DspQueryResp>) -> COptionDspQueryResp {
        let none = DspQueryResp {
            version: 0,
            dsp_type: 0,
            pcb: 0,
        };
        COptionDspQueryResp {
            some: info.is_some(),
            value: info.unwrap_or(none),
        }
    }
}

// The steps by number, since C takes no enum. Functions, and no `TryFrom` and `From`: both types stand in crates below.
fn step_in(number: u8) -> Result<DspStep, UnknownNumber>
    ensures { result ≡ dsp_step_in number }
{
    match number {
        0 => Ok(DspStep::WaitStatus),
        1 => Ok(DspStep::WaitDspQuery),
        2 => Ok(DspStep::WaitDevInfo),
        3 => Ok(DspStep::WaitProdInfo0),
        4 => Ok(DspStep::WaitProdInfo1),
        5 => Ok(DspStep::WaitProdInfo2),
        6 => Ok(DspStep::WaitConfig),
        7 => Ok(DspStep::WaitPowerMode),
        8 => Ok(DspStep::Done),
        _ => Err(UnknownNumber),
    }
}

fn step_out(step: DspStep) -> u8
    ensures { result ≡ dsp_step_out step }
{
    step as u8
}

impl TryFrom<CDsp> for DspSequencer {
    type Error = UnknownNumber;

    ghost try_from_gives = { λ c r. r ≡ dsp_in c };

    fn try_from(c: CDsp) -> Result<DspSequencer, UnknownNumber> {
        let step = step_in(c.step)?;
        let replies = DspReplies {
            status: c.status.try_into()?,
            hw_info: c.hw_info.into(),
            dev_info: c.dev_info.into(),
            prod_info: c.prod_info,
            config: c.config.into(),
            refused: c.refused.try_into()?,
            power_mode_unanswered: c.power_mode_unanswered,
        };
        let state = DspState {
            step,
            replies,
            deadline: c.deadline.into(),
        };
        Ok(DspSequencer {
            state,
            last: c.last,
            ticks: c.ticks.try_into()?,
        })
    }
}

impl From<DspSequencer> for CDsp {
    ghost from_gives = { λ seq r. r ≡ dsp_out seq };

    fn from(seq: DspSequencer) -> CDsp {
        let replies = seq.state.replies;
        // By a variable: the borrow checker refuses this field, which is an array, straight in the literal.
        let prod_info = replies.prod_info;
        CDsp {
            step: step_out(seq.state.step),
            status: replies.status.into(),
            hw_info: replies.hw_info.into(),
            dev_info: replies.dev_info.into(),
            prod_info,
            config: replies.config.into(),
            refused: replies.refused.into(),
            power_mode_unanswered: replies.power_mode_unanswered,
            deadline: seq.state.deadline.into(),
            last: seq.last,
            ticks: seq.ticks.into(),
        }
    }
}
