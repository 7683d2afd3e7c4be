// The AVR configuration, and its settings. C calls no function and takes no record with a type parameter, so what is alike in the
// files of other sequences stands here again.
ghost use Rattle.std.specs.Prelude.{◌≡◌};
ghost use Rattle.settings.specs.Settings.{mode_only, from_mevo};
ghost use Rattle.abi.specs.Settings.{settings_out};
ghost use Rattle.host.specs.Untimed.{avr_config_fed, avr_config_new, avr_config_feed};

use crate::absent;
use crate::fed::Fed;
use abi::action::CAction;
use abi::config::CSettings;
use abi_avr_config::CAvrConfig;
use abi_messages::{CEnvelope, Envelope};
use avr_config::AvrConfigSequencer;
use protocol::RadarCal;
use settings::{AvrSettings, MAX_PARAMS, MevoSettings};

#[repr(C)]
#[derive(Clone, Copy)]
pub struct CAvrConfigFed {
    pub refusal: u8,
    pub action: CAction,
    pub seq: CAvrConfig,
}

// C takes no record with a type parameter.
impl From<Fed<CAvrConfig>> for CAvrConfigFed {
    ghost from_gives = { λ fed r. r ≡ avr_config_fed fed };

    fn from(fed: Fed<CAvrConfig>) -> CAvrConfigFed {
        CAvrConfigFed {
            refusal: fed.refusal,
            action: fed.action,
            seq: fed.seq,
        }
    }
}

#[unsafe(no_mangle)]
pub extern "C" fn wigtalom_mode_only(mode: u8) -> CSettings
    ensures { result ≡ settings_out (mode_only mode) }
{
    AvrSettings::mode_only(mode).into()
}

#[unsafe(no_mangle)]
pub extern "C" fn wigtalom_mevo_settings(
    mode: u8,
    ball_type: u8,
    track_fraction: f64,
    tee_height_m: f64,
    radar_cal: RadarCal,
) -> CSettings
    ensures { result ≡ settings_out (from_mevo (record { mode = mode; ball_type = ball_type; track_fraction = track_fraction; tee_height_m = tee_height_m; radar_cal = radar_cal })) }
{
    let settings = MevoSettings::new(mode, ball_type, track_fraction, tee_height_m, radar_cal);
    AvrSettings::from(settings).into()
}

// A count above 32 is told before a format that there is not. Whether an id occurs twice is asked of settings, and so after both.
#[unsafe(no_mangle)]
pub extern "C" fn wigtalom_avr_config_new(settings: CSettings) -> CAvrConfigFed
    ensures { result ≡ avr_config_new settings }
{
    let none = AvrConfigSequencer::new(AvrSettings::mode_only(0)).seq;
    if MAX_PARAMS < settings.len {
        let counted = AvrSettings {
            len: settings.len,
            ..none.settings
        };
        return Fed::<CAvrConfig>::from(AvrConfigSequencer::new(counted)).into();
    }
    match AvrSettings::try_from(settings) {
        Ok(settings) => Fed::<CAvrConfig>::from(AvrConfigSequencer::new(settings)).into(),
        Err(_) => Fed::declined(none.into()).into(),
    }
}

// C calls a function that takes no type parameter, and so each sequence has its own.
#[unsafe(no_mangle)]
pub extern "C" fn wigtalom_avr_config_feed(
    seq: CAvrConfig,
    env: CEnvelope,
    text: &[u8],
    payload: &[u8],
) -> CAvrConfigFed
    ensures { result ≡ avr_config_feed seq env text.now payload.now }
{
    let (Ok(open), Ok(env)) = (AvrConfigSequencer::try_from(seq), Envelope::try_from(env)) else {
        return Fed::declined(seq).into();
    };
    let fed = open.feed(env.src, env.type_id, env.message, text, payload);
    let new = absent::avr_config(fed.seq.into(), seq);
    Fed::answered(fed.outcome, new, seq).into()
}
