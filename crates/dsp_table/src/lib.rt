// The steps of a DSP start-up (src/seq.rs, "Phase 1 — DspSequencer"), what it asks when each begins, and the replies that it stores. Its table stands in
// specs/Table.antt.
#![tactic(auto)]

ghost use Rattle.std.specs.Prelude.{◌≡◌};
ghost use Rattle.dsp_table.specs.Stores.{no_status};
ghost use Rattle.dsp_table.specs.Table.{request};

use protocol::{
    Action, BusAddr, Command, ConfigResp, DevInfoResp, DspQueryResp, DspStatus, Nack, ParamData,
    ParamValue, ProdInfoReq, ProdInfoResp, StatusPoll, Stored,
};

// The power mode (param 0x01 of a DSP that has the step, as the Xi's), and its value Normal.
const XI_DSP_POWER_MODE_ID: u8 = 0x01;

const XI_DSP_POWER_MODE_NORMAL: i32 = 1;

#[derive(Clone, Copy, PartialEq, Eq)]
pub enum DspStep {
    WaitStatus,
    WaitDspQuery,
    WaitDevInfo,
    WaitProdInfo0,
    WaitProdInfo1,
    WaitProdInfo2,
    WaitConfig,
    // with the power-mode step
    WaitPowerMode,
    Done,
}

// A status; `payload` is that of a V46, and empty beside a V80.
#[derive(Clone, Copy)]
pub struct DspStatusReply {
    pub status: DspStatus,
    pub payload: Stored,
}

impl DspStatusReply {
    // What stands in a result where none has come.
    pub fn none() -> DspStatusReply
        ensures { result ≡ no_status }
    {
        DspStatusReply {
            status: DspStatus::none(),
            payload: Stored::empty(),
        }
    }
}

// The stored replies. Product infos that haven't come are empty.
#[derive(Clone, Copy)]
pub struct DspReplies {
    pub status: Option<DspStatusReply>,
    pub hw_info: Option<DspQueryResp>,
    pub dev_info: Option<DevInfoResp>,
    // an array and no `Vec`, since memory is fixed: the step says how many have come
    pub prod_info: [ProdInfoResp; 3],
    pub config: Option<ConfigResp>,
    // the nack that ended the power-mode write, not yet taken
    pub refused: Option<Nack>,
    pub power_mode_unanswered: bool,
}

// What is asked when a step begins: a new start-up polls (crate dsp), and at Done nothing is sent.
pub fn request(step: DspStep) -> Option<Action>
    ensures { result ≡ request step }
{
    let command = match step {
        DspStep::WaitStatus => Command::StatusPoll(StatusPoll { pi_mode: false }),
        DspStep::WaitDspQuery => Command::DspQuery,
        DspStep::WaitDevInfo => Command::DevInfoReq,
        DspStep::WaitProdInfo0 => Command::ProdInfoReq(ProdInfoReq { sub_query: 0x00 }),
        DspStep::WaitProdInfo1 => Command::ProdInfoReq(ProdInfoReq { sub_query: 0x08 }),
        DspStep::WaitProdInfo2 => Command::ProdInfoReq(ProdInfoReq { sub_query: 0x09 }),
        DspStep::WaitConfig => Command::ConfigQuery,
        DspStep::WaitPowerMode => Command::ParamValue(ParamValue {
            param_id: XI_DSP_POWER_MODE_ID,
            value: ParamData::Int24(XI_DSP_POWER_MODE_NORMAL),
        }),
        DspStep::Done => return None,
    };
    Some(Action::send(command, BusAddr::Dsp))
}
