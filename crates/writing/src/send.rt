// Writes what a call sends, and what it answers.
use crate::{fields, write};
use protocol::{Action, Command, ParamData, ParamValue, Refusal};
use std::io;
use std::io::Write;

// The fields of a parameter. A state has up to 32 of them: with `{:02X}` and `{:016X}`, which take several writes each, it took half as long again.
pub fn param<W: Write>(out: &mut W, param: ParamValue) -> io::Result<()> {
    out.write_all(b" param_id=0x")?;
    write::digits(out, &[param.param_id])?;
    match param.value {
        ParamData::Int24(n) => write!(out, " int24={n}"),
        ParamData::Float40(x) => fields::float(out, "float40", x),
    }
}

// A command with its fields. The bytes of some stand beside it in the action.
fn command<W: Write>(out: &mut W, action: &Action) -> io::Result<()> {
    match action.command {
        Command::StatusPoll(c) => write!(out, "StatusPoll pi_mode={}", c.pi_mode),
        Command::ModeSet(c) => write!(out, "ModeSet mode={}", c.mode),
        Command::AvrConfigCmd(c) => write!(out, "AvrConfigCmd arm={}", c.arm),
        Command::ParamReadReq(c) => write!(out, "ParamReadReq param_id=0x{:02X}", c.param_id),
        Command::ParamValue(c) => {
            write!(out, "ParamValue")?;
            param(out, c)
        }
        Command::RadarCal(c) => {
            write!(
                out,
                "RadarCal range_mm={} height_mm={}",
                c.range_mm, c.height_mm
            )
        }
        Command::DspQuery => write!(out, "DspQuery"),
        Command::ConfigQuery => write!(out, "ConfigQuery"),
        Command::AvrConfigQuery => write!(out, "AvrConfigQuery"),
        Command::DevInfoReq => write!(out, "DevInfoReq"),
        Command::ProdInfoReq(c) => write!(out, "ProdInfoReq sub_query=0x{:02X}", c.sub_query),
        Command::NetConfigReq(c) => {
            write!(out, "NetConfigReq query_password={}", c.query_password)
        }
        Command::CalParamReq => write!(out, "CalParamReq"),
        Command::CalDataReq(c) => {
            write!(out, "CalDataReq sub_cmd=0x{:02X}", c.sub_cmd)?;
            fields::bytes(out, "payload", &action.payload)
        }
        Command::TimeSync(c) => {
            write!(
                out,
                "TimeSync epoch={} session={} tail=",
                c.epoch, c.session
            )?;
            write::digits(out, &action.tail)
        }
        Command::CamConfigReq => write!(out, "CamConfigReq"),
        Command::ConfigAck(c) => write!(
            out,
            "ConfigAck bus_addr=0x{:02X} acked_cmd=0x{:02X}",
            c.bus_addr, c.acked_cmd
        ),
    }
}

pub fn send<W: Write>(out: &mut W, action: &Option<Action>) -> io::Result<()> {
    match action {
        Some(action) => {
            write!(out, "send {} ", write::Source(action.dest))?;
            command(out, action)
        }
        None => write!(out, "no send"),
    }
}

// Whether a call was accepted.
pub fn outcome<T, W: Write>(out: &mut W, outcome: &Result<T, Refusal>) -> io::Result<()> {
    match outcome {
        Ok(_) => write!(out, "accepted"),
        Err(refusal) => write!(out, "refused {}", refusal.number()),
    }
}

// The result of a sequence, its fields as `write` writes them, or why there is none yet.
pub fn result<T, W: Write, F: FnOnce(&mut W, &T) -> io::Result<()>>(
    out: &mut W,
    finished: &Result<T, Refusal>,
    write: F,
) -> io::Result<()>
    requires { F.IsAlwaysCallable write }
{
    outcome(out, finished)?;
    match finished {
        Ok(result) => {
            write!(out, ";")?;
            write(out, result)
        }
        Err(_) => Ok(()),
    }
}

// What is sent. The step that is waited at goes behind it.
pub fn sent<W: Write>(out: &mut W, answer: &Result<Option<Action>, Refusal>) -> io::Result<()> {
    send(out, &answer.unwrap_or(None))?;
    write!(out, "; ")
}

// Whether a call was accepted, the entry that it has ticked, from 1, and what it sends. The step goes behind it.
pub fn fed<W: Write>(
    out: &mut W,
    answer: &Result<Option<Action>, Refusal>,
    ticked: Option<usize>,
) -> io::Result<()> {
    outcome(out, answer)?;
    write!(out, "; ")?;
    if let Some(entry) = ticked {
        write!(out, "ticked {entry}; ")?;
    }
    sent(out, answer)
}
