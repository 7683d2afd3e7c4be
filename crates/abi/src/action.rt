// Sends, as a host takes them out.
ghost use Rattle.std.specs.Prelude.{◌≡◌};
ghost use Rattle.protocol.specs.declared.Command.{Command};
ghost use Rattle.abi.specs.Actions.{command_out, action_out, nothing, numbers};

use abi_values::CParamValue;
use protocol::{Action, BusAddr, Command};

// A command by its place in the enum, since C takes none, and its numbers: `flag` is pi_mode, arm or query_password; `byte` is the mode, a
// parameter's id, a height, a sub query, a sub command, a session or a bus address; `acked_cmd` that of an acknowledgement; `wide` a range
// or an epoch; `param` a `ParamValue`. What a command has not is 0.
#[repr(C)]
#[derive(Clone, Copy)]
pub struct CCommand {
    pub number: u8,
    pub flag: bool,
    pub byte: u8,
    pub acked_cmd: u8,
    pub wide: u32,
    pub param: CParamValue,
}

// One send or none: C takes no `Option`. Of none each number is 0, and the device the app.
#[repr(C)]
#[derive(Clone, Copy)]
pub struct CAction {
    pub some: bool,
    pub command: CCommand,
    pub dest: u8,
    pub payload: [u8; 10],
    pub tail: [u8; 2],
}

// The numbers in a row: with the names of the fields each arm below would be four lines.
fn numbers(number: u8, flag: bool, byte: u8, acked_cmd: u8, wide: u32) -> CCommand
    ensures { result ≡ numbers number flag byte acked_cmd wide }
{
    CCommand {
        number,
        flag,
        byte,
        acked_cmd,
        wide,
        param: CParamValue {
            param_id: 0,
            format: 0,
            int24: 0,
            float40: 0.0,
        },
    }
}

impl From<Command> for CCommand {
    ghost from_gives = { λ command r. r ≡ command_out command };

    fn from(command: Command) -> CCommand {
        match command {
            Command::StatusPoll(c) => numbers(0, c.pi_mode, 0, 0, 0),
            Command::ModeSet(c) => numbers(1, false, c.mode, 0, 0),
            Command::AvrConfigCmd(c) => numbers(2, c.arm, 0, 0, 0),
            Command::ParamReadReq(c) => numbers(3, false, c.param_id, 0, 0),
            Command::ParamValue(c) => CCommand {
                param: c.into(),
                ..numbers(4, false, 0, 0, 0)
            },
            Command::RadarCal(c) => numbers(5, false, c.height_mm, 0, c.range_mm as u32),
            Command::DspQuery => numbers(6, false, 0, 0, 0),
            Command::ConfigQuery => numbers(7, false, 0, 0, 0),
            Command::AvrConfigQuery => numbers(8, false, 0, 0, 0),
            Command::DevInfoReq => numbers(9, false, 0, 0, 0),
            Command::ProdInfoReq(c) => numbers(10, false, c.sub_query, 0, 0),
            Command::NetConfigReq(c) => numbers(11, c.query_password, 0, 0, 0),
            Command::CalParamReq => numbers(12, false, 0, 0, 0),
            Command::CalDataReq(c) => numbers(13, false, c.sub_cmd, 0, 0),
            Command::TimeSync(c) => numbers(14, false, c.session, 0, c.epoch),
            Command::CamConfigReq => numbers(15, false, 0, 0, 0),
            Command::ConfigAck(c) => numbers(16, false, c.bus_addr, c.acked_cmd, 0),
        }
    }
}

impl CAction {
    pub fn none() -> CAction
        ensures { result ≡ nothing }
    {
        CAction {
            some: false,
            command: numbers(0, false, 0, 0, 0),
            dest: BusAddr::App.as_byte(),
            payload: [0u8; 10],
            tail: [0u8; 2],
        }
    }
}

impl From<Option<Action>> for CAction {
    ghost from_gives = { λ action r. r ≡ action_out action };

    fn from(action: Option<Action>) -> CAction {
        let Some(action) = action else {
            return CAction::none();
        };
        // By a variable: the borrow checker refuses this field, which is an array, straight in the literal.
        let payload = action.payload;
        let tail = action.tail;
        CAction {
            some: true,
            command: action.command.into(),
            dest: action.dest.as_byte(),
            payload,
            tail,
        }
    }
}
