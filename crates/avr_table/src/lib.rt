// The steps of an AVR start-up (src/seq.rs, "Phase 2 — AvrSequencer"), what it asks when each begins, and the replies that it stores. Its table stands in
// specs/Table.antt.
#![tactic(auto)]

ghost use Rattle.std.specs.Prelude.{◌≡◌, Some};
ghost use Rattle.protocol.specs.Action.{send_to};
ghost use Rattle.protocol.specs.declared.BusAddr.{BusAddr};
ghost use Rattle.avr_table.specs.Stores.{param_read_req};
ghost use Rattle.avr_table.specs.Table.{request};

use protocol::{
    Action, AvrConfigResp, AvrStatus, BusAddr, CalDataResp, CalParamResp, Command, ConfigResp,
    DevInfoResp,
};
use requests::{cal_data_req, param_read_req, status_poll, time_sync};

#[derive(Clone, Copy, PartialEq, Eq)]
pub enum AvrStep {
    WaitStatus1,
    WaitStatus2,
    WaitDevInfo1,
    WaitDevInfo2,
    WaitParam0C,
    WaitParam0D,
    WaitConfig,
    // with the factory calibration
    WaitFactoryCal,
    WaitIfCal,
    // the next three with the factory calibration
    WaitAvrConfig,
    WaitParam64,
    WaitTimeSync,
    Done,
}

// The stored replies.
#[derive(Clone, Copy)]
pub struct AvrReplies {
    pub status: Option<AvrStatus>,
    pub dev_info: Option<DevInfoResp>,
    pub config: Option<ConfigResp>,
    pub factory_cal: Option<CalDataResp>,
    pub if_cal: Option<CalParamResp>,
    pub avr_config: Option<AvrConfigResp>,
}

fn ask(command: Command) -> Option<Action>
    ensures { result ≡ Some (send_to BusAddr.Avr command) }
{
    Some(Action::send(command, BusAddr::Avr))
}

// The request to read this parameter.
fn read(param_id: u8) -> Option<Action>
    ensures { result ≡ Some (param_read_req param_id) }
{
    Some(param_read_req(param_id, BusAddr::Avr))
}

// What is asked when a step begins, if anything; the wall seconds are for the time alone.
pub fn request(step: AvrStep, wall: u64) -> Option<Action>
    ensures { result ≡ request step wall }
{
    match step {
        AvrStep::WaitStatus1 | AvrStep::WaitStatus2 => Some(status_poll(false, BusAddr::Avr)),
        AvrStep::WaitDevInfo1 | AvrStep::WaitDevInfo2 => ask(Command::DevInfoReq),
        AvrStep::WaitParam0C => read(0x0C),
        AvrStep::WaitParam0D => read(0x0D),
        AvrStep::WaitConfig => ask(Command::ConfigQuery),
        AvrStep::WaitFactoryCal => Some(cal_data_req()),
        AvrStep::WaitIfCal => ask(Command::CalParamReq),
        AvrStep::WaitAvrConfig => ask(Command::AvrConfigQuery),
        AvrStep::WaitParam64 => read(0x64),
        AvrStep::WaitTimeSync => Some(time_sync(wall)),
        AvrStep::Done => None,
    }
}
