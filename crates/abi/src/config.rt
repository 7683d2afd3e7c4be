// The settings of an AVR configuration.
ghost use Rattle.std.specs.Prelude.{◌≡◌};
ghost use Rattle.abi.specs.Settings.{radar_cal_in, radar_cal_out, settings_in, settings_out};

use abi_values::{CParamValue, UnknownNumber};
use protocol::{ParamValue, RadarCal};
use settings::AvrSettings;

// C takes no `Option`.
#[repr(C)]
#[derive(Clone, Copy)]
pub struct COptionRadarCal {
    pub some: bool,
    pub value: RadarCal,
}

// An array and a count, and no `Vec`: a host holds it by value, and C lays it out. The format of each of the 32 places is looked at: a
// host leaves those past `len` 0.
#[repr(C)]
#[derive(Clone, Copy)]
pub struct CSettings {
    pub mode: u8,
    pub params: [CParamValue; 32],
    pub len: usize,
    pub radar_cal: COptionRadarCal,
}

impl From<COptionRadarCal> for Option<RadarCal> {
    ghost from_gives = { λ cal r. r ≡ radar_cal_in cal };

    fn from(cal: COptionRadarCal) -> Option<RadarCal> {
        cal.some.then_some(cal.value)
    }
}

impl From<Option<RadarCal>> for COptionRadarCal {
    ghost from_gives = { λ cal r. r ≡ radar_cal_out cal };

    fn from(cal: Option<RadarCal>) -> COptionRadarCal {
        let none = RadarCal {
            range_mm: 0,
            height_mm: 0,
        };
        COptionRadarCal {
            some: cal.is_some(),
            value: cal.unwrap_or(none),
        }
    }
}

impl TryFrom<CSettings> for AvrSettings {
    type Error = UnknownNumber;

    ghost try_from_gives = { λ c r. r ≡ settings_in c };

    fn try_from(c: CSettings) -> Result<AvrSettings, UnknownNumber> {
        Ok(AvrSettings {
            mode: c.mode,
            params: c.params.try_map(ParamValue::try_from)?,
            len: c.len,
            radar_cal: c.radar_cal.into(),
        })
    }
}

impl From<AvrSettings> for CSettings {
    ghost from_gives = { λ settings r. r ≡ settings_out settings };

    fn from(settings: AvrSettings) -> CSettings {
        CSettings {
            mode: settings.mode,
            params: settings.params.map(CParamValue::from),
            len: settings.len,
            radar_cal: settings.radar_cal.into(),
        }
    }
}
