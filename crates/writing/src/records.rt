// Records that sequences store.
use crate::{fields, write};
use protocol::{
    ConfigResp, DevInfoResp, DspQueryResp, DspStatus, DspStatus46, DspStatus80, Nack, ProdInfoResp,
    Stored,
};
use std::io;
use std::io::Write;
use write::Row;

// So many numbers of 16 bits, of six bytes each at most, are put together with what stands before them, and written at once.
const IN_A_ROW: usize = 9;

// A nack, with the source and the type id of its envelope.
pub fn nack<W: Write>(out: &mut W, nack: &Nack) -> io::Result<()> {
    write!(
        out,
        "src={} type_id=0x{:02X} bus_addr=0x{:02X} acked_cmd=0x{:02X}",
        write::Source(nack.src),
        nack.type_id,
        nack.nack.bus_addr,
        nack.nack.acked_cmd
    )
}

fn status_80<W: Write>(out: &mut W, s: DspStatus80) -> io::Result<()> {
    write!(
        out,
        " status=V80 state={} input_voltage_usb={} system_voltage={} battery_current={} temperature_raw={}",
        s.state, s.input_voltage_usb, s.system_voltage, s.battery_current, s.temperature_raw
    )?;
    write!(
        out,
        " battery_voltage={} battery_voltage_2={} power_level={} external_power={}",
        s.battery_voltage, s.battery_voltage_2, s.power_level, s.external_power
    )
}

fn status_46<W: Write>(out: &mut W, s: DspStatus46) -> io::Result<()> {
    write!(
        out,
        " status=V46 state={} version=0x{:02X}",
        s.state, s.version
    )
}

// A status; the payload is that of a V46.
pub fn status<W: Write>(out: &mut W, status: &DspStatus, payload: &Stored) -> io::Result<()> {
    match *status {
        DspStatus::V80(s) => status_80(out, s),
        DspStatus::V46(s) => {
            status_46(out, s)?;
            fields::stored(out, "payload", payload)
        }
    }
}

pub fn hw_info<W: Write>(out: &mut W, info: &DspQueryResp) -> io::Result<()> {
    write!(
        out,
        " hw_info=version=0x{:02X} dsp_type=0x{:02X} pcb={}",
        info.version, info.dsp_type, info.pcb
    )
}

pub fn dev_info<W: Write>(out: &mut W, info: &DevInfoResp) -> io::Result<()> {
    fields::stored(out, "dev_info=text", &info.text)?;
    fields::stored(out, "payload", &info.payload)
}

pub fn prod_info<W: Write>(out: &mut W, infos: &[ProdInfoResp; 3]) -> io::Result<()> {
    for info in infos {
        fields::stored(out, "prod_info", &info.text)?;
    }
    Ok(())
}

// The 34 numbers, with commas between them.
pub fn config<W: Write>(out: &mut W, config: &ConfigResp) -> io::Result<()> {
    out.write_all(b" params")?;
    let mut before = b'=';
    for some in config.params.chunks(IN_A_ROW) {
        let mut row = Row::new();
        for n in some {
            row.push(before);
            row.number(*n);
            before = b',';
        }
        out.write_all(row.as_slice())?;
    }
    Ok(())
}

pub fn instant<W: Write>(out: &mut W, name: &str, instant: &Option<u64>) -> io::Result<()> {
    fields::optional(out, name, instant, |out, instant| {
        fields::number(out, name, *instant)
    })
}
