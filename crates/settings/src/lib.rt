// The settings of an AVR configuration (src/seq.rs, "Phase 4").
#![tactic(auto)]

ghost use Rattle.std.specs.Prelude.{◌≡◌};
ghost use Rattle.settings.specs.Settings.{mode_only, mevo_params, from_mevo, kept_params, kept};

use protocol::{ParamData, ParamValue, RadarCal};

pub mod repeats;

// The most parameters of a settings list.
pub const MAX_PARAMS: usize = 32;

// No `Vec` of parameters: a run holds its settings without a heap, and C holds the run by value.
#[derive(Clone, Copy)]
pub struct AvrSettings {
    // detection mode
    pub mode: u8,
    pub params: [ParamValue; 32],
    // how many of them count
    pub len: usize,
    pub radar_cal: Option<RadarCal>,
}

// Everything that is set on a Mevo+ or Mevo Gen2.
#[derive(Clone, Copy)]
pub struct MevoSettings {
    pub mode: u8,
    // 0 standard, 1 RCT
    pub ball_type: u8,
    // the least track percentage, as a fraction
    pub track_fraction: f64,
    // in meters
    pub tee_height_m: f64,
    pub radar_cal: RadarCal,
}

const MEVO_BALL_TYPE_ID: u8 = 0x06;

const MEVO_TRACK_FRACTION_ID: u8 = 0x0F;

const MEVO_TEE_HEIGHT_ID: u8 = 0x26;

// What stands in a place that holds no parameter.
const NO_PARAM: ParamValue = ParamValue {
    param_id: 0,
    value: ParamData::Int24(0),
};

// The first `len` of the parameters, and nothing after them.
fn kept_params(params: [ParamValue; 32], len: usize) -> [ParamValue; 32]
    ensures { result ≡ kept_params params len }
{
    let mut kept = [NO_PARAM; 32];
    let n = len.min(MAX_PARAMS);
    kept[..n].copy_from_slice(&params[..n]);
    kept
}

impl AvrSettings {
    // The mode alone.
    pub fn mode_only(mode: u8) -> AvrSettings
        ensures { result ≡ mode_only mode }
    {
        AvrSettings {
            mode: mode,
            params: [NO_PARAM; 32],
            len: 0,
            radar_cal: None,
        }
    }

    // As a run stores them: places past the count are empty, whatever the caller left there.
    pub fn kept(self) -> AvrSettings
        ensures { result ≡ kept self }
    {
        AvrSettings {
            params: kept_params(self.params, self.len),
            ..self
        }
    }
}

impl From<MevoSettings> for AvrSettings {
    ghost from_gives = { λ settings r. r ≡ from_mevo settings };

    fn from(settings: MevoSettings) -> AvrSettings {
        let mut params = [NO_PARAM; 32];
        params[..3].copy_from_slice(&settings.params());
        AvrSettings {
            mode: settings.mode,
            params,
            len: 3,
            radar_cal: Some(settings.radar_cal),
        }
    }
}

impl MevoSettings {
    pub fn new(
        mode: u8,
        ball_type: u8,
        track_fraction: f64,
        tee_height_m: f64,
        radar_cal: RadarCal,
    ) -> MevoSettings
        ensures { result ≡ record { mode = mode; ball_type = ball_type; track_fraction = track_fraction; tee_height_m = tee_height_m; radar_cal = radar_cal } }
    {
        MevoSettings {
            mode,
            ball_type,
            track_fraction,
            tee_height_m,
            radar_cal,
        }
    }

    // The parameters, in the order in which they are sent.
    pub fn params(self) -> [ParamValue; 3]
        ensures { result ≡ mevo_params self }
    {
        [
            ParamValue {
                param_id: MEVO_BALL_TYPE_ID,
                value: ParamData::Int24(self.ball_type as i32),
            },
            ParamValue {
                param_id: MEVO_TRACK_FRACTION_ID,
                value: ParamData::Float40(self.track_fraction),
            },
            ParamValue {
                param_id: MEVO_TEE_HEIGHT_ID,
                value: ParamData::Float40(self.tee_height_m),
            },
        ]
    }
}
