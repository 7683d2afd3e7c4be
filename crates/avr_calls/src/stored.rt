// Writes what an AVR start-up stores.
use avr::{AvrSequencer, AvrSync};
use avr_table::AvrReplies;
use protocol::{AvrConfigResp, AvrStatus, CalDataResp, CalParamResp, Stored};
use std::io;
use std::io::Write;
use writing::{fields, records, sheets, write};

fn status<W: Write>(out: &mut W, s: &AvrStatus) -> io::Result<()> {
    write!(
        out,
        " status=version=0x{:02X} state={} hw_id_hi={} hw_id_lo={} full_app_id={}",
        s.version, s.state, s.hw_id_hi, s.hw_id_lo, s.full_app_id
    )?;
    fields::float(out, "temperature", s.temperature)?;
    fields::float(out, "tilt", s.tilt)?;
    fields::float(out, "roll", s.roll)
}

// A reply that is a payload alone.
fn payload<W: Write>(out: &mut W, name: &str, payload: Option<&Stored>) -> io::Result<()> {
    fields::optional(out, name, &payload, |out, payload| {
        fields::named(out, name)?;
        out.write_all(b"payload=")?;
        write::digits_and_text(out, payload.as_slice())
    })
}

// The replies behind the parameters: of what is stored and of the result, which are different structs.
fn last_replies<W: Write>(
    out: &mut W,
    factory_cal: &Option<CalDataResp>,
    if_cal: &Option<CalParamResp>,
    avr_config: &Option<AvrConfigResp>,
) -> io::Result<()> {
    payload(out, "factory_cal", factory_cal.as_ref().map(|r| &r.payload))?;
    payload(out, "if_cal", if_cal.as_ref().map(|r| &r.payload))?;
    payload(out, "avr_config", avr_config.as_ref().map(|r| &r.payload))
}

// The fields of a result.
pub fn sync<W: Write>(out: &mut W, s: &AvrSync) -> io::Result<()> {
    status(out, &s.status)?;
    records::dev_info(out, &s.dev_info)?;
    records::config(out, &s.config)?;
    last_replies(out, &s.factory_cal, &s.if_cal, &s.avr_config)
}

fn replies<W: Write>(out: &mut W, r: &AvrReplies) -> io::Result<()> {
    fields::optional(out, "status", &r.status, status)?;
    fields::optional(out, "dev_info", &r.dev_info, records::dev_info)?;
    fields::optional(out, "params", &r.config, records::config)?;
    last_replies(out, &r.factory_cal, &r.if_cal, &r.avr_config)
}

// Every stored field.
pub fn state<W: Write>(out: &mut W, avr: &AvrSequencer) -> io::Result<()> {
    write!(out, " last={}", avr.last)?;
    replies(out, &avr.state.replies)?;
    records::instant(out, "cal_deadline", &avr.state.cal_deadline)?;
    records::instant(out, "repoll_at", &avr.state.repoll_at)?;
    sheets::ticks(out, &avr.ticks)
}
