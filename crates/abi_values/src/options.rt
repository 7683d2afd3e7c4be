// Records that may be absent, as they cross to a host: `value` counts where `some` is set. Beside an absent one stands the empty record
// on the way out; on the way in it is not looked at. A record for each type, since C takes no `Option` and none with a type parameter.
ghost use Rattle.std.specs.Prelude.{◌≡◌};
ghost use Rattle.abi_values.specs.Options.{instant_in, instant_out, dev_info_in, dev_info_out, config_in, config_out};

use protocol::{ConfigResp, DevInfoResp};

// C takes no `Option`.
#[repr(C)]
#[derive(Clone, Copy)]
pub struct COptionInstant {
    pub some: bool,
    pub value: u64,
}

// C takes no `Option`.
#[repr(C)]
#[derive(Clone, Copy)]
pub struct COptionDevInfoResp {
    pub some: bool,
    pub value: DevInfoResp,
}

// C takes no `Option`.
#[repr(C)]
#[derive(Clone, Copy)]
pub struct COptionConfigResp {
    pub some: bool,
    pub value: ConfigResp,
}

impl From<COptionInstant> for Option<u64> {
    ghost from_gives = { λ c r. r ≡ instant_in c };

    fn from(at: COptionInstant) -> Option<u64> {
        at.some.then_some(at.value)
    }
}

impl From<Option<u64>> for COptionInstant {
    ghost from_gives = { λ at r. r ≡ instant_out at };

    fn from(at: Option<u64>) -> COptionInstant {
        COptionInstant {
            some: at.is_some(),
            value: at.unwrap_or(0),
        }
    }
}

impl From<COptionDevInfoResp> for Option<DevInfoResp> {
    ghost from_gives = { λ info r. r ≡ dev_info_in info };

    fn from(info: COptionDevInfoResp) -> Option<DevInfoResp> {
        info.some.then_some(info.value)
    }
}

impl From<Option<DevInfoResp>> for COptionDevInfoResp {
    ghost from_gives = { λ info r. r ≡ dev_info_out info };

    fn from(info: Option<DevInfoResp>) -> COptionDevInfoResp {
        COptionDevInfoResp {
            some: info.is_some(),
            value: info.unwrap_or(DevInfoResp::none()),
        }
    }
}

impl From<COptionConfigResp> for Option<ConfigResp> {
    ghost from_gives = { λ config r. r ≡ config_in config };

    fn from(config: COptionConfigResp) -> Option<ConfigResp> {
        config.some.then_some(config.value)
    }
}

impl From<Option<ConfigResp>> for COptionConfigResp {
    ghost from_gives = { λ config r. r ≡ config_out config };

    fn from(config: Option<ConfigResp>) -> COptionConfigResp {
        COptionConfigResp {
            some: config.is_some(),
            value: config.unwrap_or(ConfigResp::none()),
        }
    }
}
