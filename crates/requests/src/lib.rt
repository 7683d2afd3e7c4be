// Sends with fields. Those that a sequence makes of its own records (ProdInfoReq, ParamValue, ModeSet, RadarCal) stand with it.
#![tactic(auto)]

ghost use Rattle.std.specs.Prelude.{◌≡◌};
ghost use Rattle.requests.specs.Requests.{status_poll, param_read_req, net_config_req, cal_data_req, time_sync, avr_config_cmd};

use protocol::{
    Action, AvrConfigCmd, BusAddr, CalDataReq, Command, NetConfigReq, ParamReadReq, StatusPoll,
    TimeSync,
};

pub fn status_poll(pi_mode: bool, dest: BusAddr) -> Action
    ensures { result ≡ status_poll pi_mode dest }
{
    Action::send(Command::StatusPoll(StatusPoll { pi_mode }), dest)
}

pub fn param_read_req(param_id: u8, dest: BusAddr) -> Action
    ensures { result ≡ param_read_req param_id dest }
{
    Action::send(Command::ParamReadReq(ParamReadReq { param_id }), dest)
}

pub fn net_config_req(query_password: bool) -> Action
    ensures { result ≡ net_config_req query_password }
{
    Action::send(
        Command::NetConfigReq(NetConfigReq { query_password }),
        BusAddr::Pi,
    )
}

// The request for the factory calibration.
pub fn cal_data_req() -> Action
    ensures { result ≡ cal_data_req }
{
    Action {
        command: Command::CalDataReq(CalDataReq { sub_cmd: 0x03 }),
        dest: BusAddr::Avr,
        payload: [0x09, 0x00, 0x00, 0x03, 0x00, 0x00, 0x00, 0x00, 0x00, 0xA5],
        tail: [0u8; 2],
    }
}

// The time, from the wall clock's seconds.
pub fn time_sync(wall: u64) -> Action
    ensures { result ≡ time_sync wall }
{
    Action {
        command: Command::TimeSync(TimeSync {
            epoch: (wall % 4_294_967_296) as u32,
            session: 0,
        }),
        dest: BusAddr::Avr,
        payload: [0u8; 10],
        tail: [0x00, 0x01],
    }
}

// Arms the unit, or opens or commits a configuration.
pub fn avr_config_cmd(arm: bool) -> Action
    ensures { result ≡ avr_config_cmd arm }
{
    Action::send(Command::AvrConfigCmd(AvrConfigCmd { arm }), BusAddr::Avr)
}
