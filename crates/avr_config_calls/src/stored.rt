// Writes the settings that a run stores.
use protocol::RadarCal;
use settings::AvrSettings;
use std::io;
use std::io::Write;
use writing::{fields, send};

fn radar_cal<W: Write>(out: &mut W, cal: &RadarCal) -> io::Result<()> {
    write!(
        out,
        " radar_cal=range_mm={} height_mm={}",
        cal.range_mm, cal.height_mm
    )
}

// Every stored field.
pub fn state<W: Write>(out: &mut W, s: &AvrSettings) -> io::Result<()> {
    write!(out, " mode={} params={}", s.mode, s.len)?;
    for param in s.params.iter().take(s.len) {
        send::param(out, *param)?;
    }
    fields::optional(out, "radar_cal", &s.radar_cal, radar_cal)
}
