// The settings of a run.
use messages::{param_value, radar_cal};
use settings::{AvrSettings, MevoSettings};
use words::{Bad, LINE, Reader};

// The mode, the parameters, of which no line has more than bytes, and the calibration, if there is one. Parameters past the places
// are counted alone: no run takes them.
pub fn avr_config(reader: &mut Reader<'_>) -> Result<AvrSettings, Bad> {
    let mut settings = mode_only(reader)?;
    // The count is kept, too: an iterator over the places would end where they do.
    for len in 0..LINE {
        settings.len = len;
        if !reader.next_is("param_id=") {
            break;
        }
        let param = param_value(reader)?;
        if let Some(place) = settings.params.get_mut(len) {
            *place = param;
        }
    }
    if reader.next_is("range_mm=") {
        settings.radar_cal = Some(radar_cal(reader)?);
    }
    Ok(settings)
}

pub fn mode_only(reader: &mut Reader<'_>) -> Result<AvrSettings, Bad> {
    Ok(AvrSettings::mode_only(reader.field("mode=")?))
}

pub fn mevo_settings(reader: &mut Reader<'_>) -> Result<AvrSettings, Bad> {
    Ok(AvrSettings::from(MevoSettings::new(
        reader.field("mode=")?,
        reader.field("ball_type=")?,
        reader.field("track_fraction=")?,
        reader.field("tee_height_m=")?,
        radar_cal(reader)?,
    )))
}
