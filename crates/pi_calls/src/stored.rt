// Writes what a Pi start-up stores.
use crate::camera;
use pi::{PiSequencer, PiSync};
use protocol::Stored;
use std::io;
use std::io::Write;
use streams::answers::Text;
use streams::withheld::MARK;
use writing::{fields, records, sheets};

// Where it is withheld it is not in the answer at all.
fn network(out: &mut Text, ssid: &Stored, password: &Stored) -> io::Result<()> {
    if out.withholds() {
        return write!(out, " ssid={MARK} password={MARK}");
    }
    fields::stored(out, "ssid", ssid)?;
    fields::stored(out, "password", password)
}

// The fields of a result.
pub fn sync(out: &mut Text, s: &PiSync) -> io::Result<()> {
    records::dev_info(out, &s.dev_info)?;
    camera::config(out, &s.cam_config)?;
    network(out, &s.ssid, &s.password)
}

// Every stored field.
pub fn state(out: &mut Text, pi: &PiSequencer) -> io::Result<()> {
    let r = &pi.replies;
    fields::optional(out, "dev_info", &r.dev_info, records::dev_info)?;
    fields::optional(out, "cam_config", &r.cam_config, camera::config)?;
    network(out, &r.ssid, &r.password)?;
    sheets::ticks(out, &pi.ticks)
}
