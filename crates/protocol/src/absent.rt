// What stands in a result, or beside a flag, where nothing has come: each field is 0, false or its type's first case.
ghost use Rattle.std.specs.Prelude.{◌≡◌};
ghost use Rattle.protocol.specs.Carried.{no_avr_status, no_cam_config, no_config, no_dev_info, no_dsp_status, no_dsp_status80};

use crate::{AvrStatus, CamConfig, ConfigResp, DevInfoResp, DspStatus, DspStatus80, Stored};

impl AvrStatus {
    pub fn none() -> AvrStatus
        ensures { result ≡ no_avr_status }
    {
        AvrStatus::default()
    }
}

impl DspStatus80 {
    pub fn none() -> DspStatus80
        ensures { result ≡ no_dsp_status80 }
    {
        DspStatus80::default()
    }
}

impl DspStatus {
    pub fn none() -> DspStatus
        ensures { result ≡ no_dsp_status }
    {
        DspStatus::V80(DspStatus80::none())
    }
}

impl DevInfoResp {
    pub fn none() -> DevInfoResp
        ensures { result ≡ no_dev_info }
    {
        DevInfoResp {
            text: Stored::empty(),
            payload: Stored::empty(),
        }
    }
}

impl ConfigResp {
    // By hand: the check finds no value for the `Default` of an array.
    pub fn none() -> ConfigResp
        ensures { result ≡ no_config }
    {
        ConfigResp { params: [0i16; 34] }
    }
}

impl CamConfig {
    pub fn none() -> CamConfig
        ensures { result ≡ no_cam_config }
    {
        CamConfig::default()
    }
}
