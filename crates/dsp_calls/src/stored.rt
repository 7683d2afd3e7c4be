// Writes what a DSP start-up stores.
use dsp::{DspSequencer, DspSync};
use dsp_table::{DspReplies, DspStatusReply};
use protocol::Nack;
use std::io;
use std::io::Write;
use writing::write::Model;
use writing::{fields, records, sheets};

// The nack that `take_refused` gives.
pub fn taken<W: Write>(out: &mut W, refused: &Option<Nack>) -> io::Result<()> {
    let Some(refused) = refused else {
        return write!(out, "none");
    };
    write!(out, "nack ")?;
    records::nack(out, refused)
}

fn refused<W: Write>(out: &mut W, refused: &Nack) -> io::Result<()> {
    write!(out, " refused=")?;
    records::nack(out, refused)
}

fn status<W: Write>(out: &mut W, reply: &DspStatusReply) -> io::Result<()> {
    records::status(out, &reply.status, &reply.payload)
}

fn place<W: Write>(out: &mut W, place: &usize) -> io::Result<()> {
    write!(out, " tag_place={place}")
}

// The fields of a result.
pub fn sync<W: Write>(out: &mut W, s: &DspSync) -> io::Result<()> {
    records::status(out, &s.status, &s.status_payload)?;
    fields::optional(out, "hw_info", &s.hw_info, records::hw_info)?;
    records::dev_info(out, &s.dev_info)?;
    records::prod_info(out, &s.prod_info)?;
    records::config(out, &s.config)?;
    write!(out, " model={}", Model(s.model))?;
    fields::optional(out, "tag_place", &s.tag_place, place)?;
    write!(out, " power_mode_unanswered={}", s.power_mode_unanswered)
}

fn replies<W: Write>(out: &mut W, r: &DspReplies) -> io::Result<()> {
    fields::optional(out, "status", &r.status, status)?;
    fields::optional(out, "hw_info", &r.hw_info, records::hw_info)?;
    fields::optional(out, "dev_info", &r.dev_info, records::dev_info)?;
    records::prod_info(out, &r.prod_info)?;
    fields::optional(out, "params", &r.config, records::config)
}

// Every stored field.
pub fn state<W: Write>(out: &mut W, dsp: &DspSequencer) -> io::Result<()> {
    let r = &dsp.state.replies;
    write!(out, " last={}", dsp.last)?;
    replies(out, r)?;
    records::instant(out, "deadline", &dsp.state.deadline)?;
    fields::optional(out, "refused", &r.refused, refused)?;
    write!(out, " power_mode_unanswered={}", r.power_mode_unanswered)?;
    sheets::ticks(out, &dsp.ticks)
}
