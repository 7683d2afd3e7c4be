// The steps of a Pi start-up (src/seq.rs, "Phase 3 — PiSequencer"), what it asks when each begins, and the replies that it stores. Its table stands in
// specs/Table.antt.
#![tactic(auto)]

ghost use Rattle.std.specs.Prelude.{◌≡◌};
ghost use Rattle.pi_table.specs.Table.{request};

use protocol::{Action, BusAddr, CamConfig, Command, DevInfoResp, Stored};
use requests::{net_config_req, param_read_req, status_poll};

// The parameters that are read last, in this order.
const IDS: [u8; 9] = [0x01, 0x07, 0x08, 0x09, 0x06, 0x0B, 0x03, 0x04, 0x05];

#[derive(Clone, Copy, PartialEq, Eq)]
pub enum PiStep {
    WaitStatus,
    WaitDevInfo,
    WaitParam0A,
    WaitCamConfig1,
    WaitCamConfig2,
    WaitNetConfig,
    WaitNetConfigPw,
    // the replies to the nine parameter reads
    WaitParams { idx: usize },
    Done,
}

// The stored replies.
#[derive(Clone, Copy)]
pub struct PiReplies {
    pub dev_info: Option<DevInfoResp>,
    pub cam_config: Option<CamConfig>,
    pub ssid: Stored,
    pub password: Stored,
}

// What is asked when a step begins; at Done nothing is.
pub fn request(step: PiStep) -> Option<Action>
    ensures { result ≡ request step }
{
    let action = match step {
        PiStep::WaitStatus => status_poll(true, BusAddr::Pi),
        PiStep::WaitDevInfo => Action::send(Command::DevInfoReq, BusAddr::Pi),
        PiStep::WaitParam0A => param_read_req(0x0A, BusAddr::Pi),
        PiStep::WaitCamConfig1 | PiStep::WaitCamConfig2 => {
            Action::send(Command::CamConfigReq, BusAddr::Pi)
        }
        PiStep::WaitNetConfig => net_config_req(false),
        PiStep::WaitNetConfigPw => net_config_req(true),
        PiStep::WaitParams { idx } => param_read_req(*IDS.get(idx)?, BusAddr::Pi),
        PiStep::Done => return None,
    };
    Some(action)
}
