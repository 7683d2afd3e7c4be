// What crosses to a host with a number where the sequences have an enum: a device by its byte on the bus, a refusal by its number, any
// other case by its place in the enum of the Rust. A number that no case has is told as not known, and never taken for another. Here
// devices, refusals and parameters, and in `options` the records that may be absent.
#![tactic(auto)]

ghost use Rattle.std.specs.Prelude.{◌≡◌};
ghost use Rattle.abi_values.specs.Numbers.{addr_in, refusal_out};
ghost use Rattle.abi_values.specs.Params.{param_in, param_out};

use protocol::{BusAddr, ParamData, ParamValue, Refusal};

pub mod options;

// A number that no case has.
#[derive(Clone, Copy, PartialEq, Eq)]
pub struct UnknownNumber;

// `int24` counts where `format` is 0, `float40` where it is 1: C takes no enum.
#[repr(C)]
#[derive(Clone, Copy)]
pub struct CParamValue {
    pub param_id: u8,
    pub format: u8,
    pub int24: i32,
    pub float40: f64,
}

// The device at this byte of the bus, which C has in place of the enum. A function, and no `TryFrom`: both types stand in
// crates below, and those know nothing of C.
pub fn addr_in(byte: u8) -> Result<BusAddr, UnknownNumber>
    ensures { result ≡ addr_in byte }
{
    match byte {
        0x10 => Ok(BusAddr::App),
        0x12 => Ok(BusAddr::Pi),
        0x30 => Ok(BusAddr::Avr),
        0x40 => Ok(BusAddr::Dsp),
        _ => Err(UnknownNumber),
    }
}

// 0 for an accepted call, else the refusal's number, since C takes no `Result`. A function, as `addr_in` is.
pub fn refusal_out<T: Copy>(outcome: Result<T, Refusal>) -> u8
    ensures { result ≡ refusal_out outcome }
{
    match outcome {
        Ok(_) => 0,
        Err(refusal) => refusal.number(),
    }
}

// The formats by number, since C takes no enum.
impl TryFrom<CParamValue> for ParamValue {
    type Error = UnknownNumber;

    ghost try_from_gives = { λ param r. r ≡ param_in param };

    fn try_from(param: CParamValue) -> Result<ParamValue, UnknownNumber> {
        let value = match param.format {
            0 => ParamData::Int24(param.int24),
            1 => ParamData::Float40(param.float40),
            _ => return Err(UnknownNumber),
        };
        Ok(ParamValue {
            param_id: param.param_id,
            value,
        })
    }
}

impl From<ParamValue> for CParamValue {
    ghost from_gives = { λ param r. r ≡ param_out param };

    fn from(param: ParamValue) -> CParamValue {
        match param.value {
            ParamData::Int24(int24) => CParamValue {
                param_id: param.param_id,
                format: 0,
                int24,
                float40: 0.0,
            },
            ParamData::Float40(float40) => CParamValue {
                param_id: param.param_id,
                format: 1,
                int24: 0,
                float40,
            },
        }
    }
}
