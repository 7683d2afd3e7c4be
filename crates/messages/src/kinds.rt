// The kinds of a message, and their fields.
use protocol::{
    AvrStatus, CamConfig, ConfigAck, DspQueryResp, DspStatus, DspStatus46, DspStatus80, Message,
    ModeSet, ParamData, ParamValue, RadarCal, TimeSync,
};
use words::{Bad, Reader, Reason, Value, named};

// The kinds, without their fields.
#[derive(Clone, Copy)]
enum Kind {
    AvrStatus,
    DspStatus,
    PiStatus,
    ConfigAck,
    ConfigNack,
    ModeAck,
    Text,
    ModeSet,
    ParamValue,
    RadarCal,
    ConfigResp,
    AvrConfigResp,
    DspQueryResp,
    DevInfoResp,
    ProdInfoResp,
    NetConfigResp,
    CalParamResp,
    CalDataResp,
    TimeSync,
    CamConfig,
    Other,
}

// A table: with a `match` on the bytes of the names, each byte of each name is a test, and the proof was four times as large.
const KINDS: [(&str, Kind); 21] = [
    ("AvrStatus", Kind::AvrStatus),
    ("DspStatus", Kind::DspStatus),
    ("PiStatus", Kind::PiStatus),
    ("ConfigAck", Kind::ConfigAck),
    ("ConfigNack", Kind::ConfigNack),
    ("ModeAck", Kind::ModeAck),
    ("Text", Kind::Text),
    ("ModeSet", Kind::ModeSet),
    ("ParamValue", Kind::ParamValue),
    ("RadarCal", Kind::RadarCal),
    ("ConfigResp", Kind::ConfigResp),
    ("AvrConfigResp", Kind::AvrConfigResp),
    ("DspQueryResp", Kind::DspQueryResp),
    ("DevInfoResp", Kind::DevInfoResp),
    ("ProdInfoResp", Kind::ProdInfoResp),
    ("NetConfigResp", Kind::NetConfigResp),
    ("CalParamResp", Kind::CalParamResp),
    ("CalDataResp", Kind::CalDataResp),
    ("TimeSync", Kind::TimeSync),
    ("CamConfig", Kind::CamConfig),
    ("Other", Kind::Other),
];

impl Value for Kind {
    fn read(word: &[u8]) -> Result<Kind, Reason> {
        named(word, &KINDS).ok_or(Reason::UnknownKind)
    }
}

// A kind with its fields, but for the numbers of a `ConfigResp`. The bytes of a `TimeSync` go to `tail`.
pub fn message(reader: &mut Reader<'_>, tail: &mut Vec<u8>) -> Result<Message, Bad> {
    Ok(match reader.next()? {
        Kind::AvrStatus => Message::AvrStatus(avr_status(reader)?),
        Kind::DspStatus => Message::DspStatus(dsp_status(reader)?),
        Kind::PiStatus => Message::PiStatus,
        Kind::ConfigAck => Message::ConfigAck(config_ack(reader)?),
        Kind::ConfigNack => Message::ConfigNack(config_ack(reader)?),
        Kind::ModeAck => Message::ModeAck,
        Kind::Text => Message::Text,
        Kind::ModeSet => Message::ModeSet(mode_set(reader)?),
        Kind::ParamValue => Message::ParamValue(param_value(reader)?),
        Kind::RadarCal => Message::RadarCal(radar_cal(reader)?),
        Kind::ConfigResp => Message::ConfigResp,
        Kind::AvrConfigResp => Message::AvrConfigResp,
        Kind::DspQueryResp => Message::DspQueryResp(dsp_query_resp(reader)?),
        Kind::DevInfoResp => Message::DevInfoResp,
        Kind::ProdInfoResp => Message::ProdInfoResp,
        Kind::NetConfigResp => Message::NetConfigResp,
        Kind::CalParamResp => Message::CalParamResp,
        Kind::CalDataResp => Message::CalDataResp,
        Kind::TimeSync => Message::TimeSync(time_sync(reader, tail)?),
        Kind::CamConfig => Message::CamConfig(cam_config(reader)?),
        Kind::Other => Message::Other,
    })
}

// Whether the next word is a kind, and another than a network reply's.
pub fn names_another(reader: &mut Reader<'_>) -> bool {
    match reader.next() {
        Ok(Kind::NetConfigResp) | Err(_) => false,
        Ok(_) => true,
    }
}

// The 34 numbers of a `ConfigResp`, with commas between them.
pub fn params(reader: &mut Reader<'_>) -> Result<[i16; 34], Bad> {
    reader.name("params=")?;
    let start = *reader;
    let mut params = [0; 34];
    for (i, param) in params.iter_mut().enumerate() {
        if 0 < i && !reader.passes_comma() {
            return Err(start.bad(Reason::Not34));
        }
        *param = reader.listed()?;
    }
    if reader.passes_comma() {
        return Err(start.bad(Reason::Not34));
    }
    Ok(params)
}

fn avr_status(reader: &mut Reader<'_>) -> Result<AvrStatus, Bad> {
    Ok(AvrStatus {
        version: reader.field("version=")?,
        state: reader.field("state=")?,
        hw_id_hi: reader.field("hw_id_hi=")?,
        hw_id_lo: reader.field("hw_id_lo=")?,
        full_app_id: reader.field("full_app_id=")?,
        temperature: reader.field("temperature=")?,
        tilt: reader.field("tilt=")?,
        roll: reader.field("roll=")?,
    })
}

fn dsp_status(reader: &mut Reader<'_>) -> Result<DspStatus, Bad> {
    reader.skip_blanks();
    let form = *reader;
    match reader.word() {
        b"V80" => Ok(DspStatus::V80(status_80(reader)?)),
        b"V46" => Ok(DspStatus::V46(status_46(reader)?)),
        _ => Err(form.bad(Reason::UnknownKind)),
    }
}

fn status_80(reader: &mut Reader<'_>) -> Result<DspStatus80, Bad> {
    Ok(DspStatus80 {
        state: reader.field("state=")?,
        input_voltage_usb: reader.field("input_voltage_usb=")?,
        system_voltage: reader.field("system_voltage=")?,
        battery_current: reader.field("battery_current=")?,
        temperature_raw: reader.field("temperature_raw=")?,
        battery_voltage: reader.field("battery_voltage=")?,
        battery_voltage_2: reader.field("battery_voltage_2=")?,
        power_level: reader.field("power_level=")?,
        external_power: reader.field("external_power=")?,
    })
}

fn status_46(reader: &mut Reader<'_>) -> Result<DspStatus46, Bad> {
    Ok(DspStatus46 {
        state: reader.field("state=")?,
        version: reader.field("version=")?,
    })
}

fn config_ack(reader: &mut Reader<'_>) -> Result<ConfigAck, Bad> {
    Ok(ConfigAck {
        bus_addr: reader.field("bus_addr=")?,
        acked_cmd: reader.field("acked_cmd=")?,
    })
}

fn mode_set(reader: &mut Reader<'_>) -> Result<ModeSet, Bad> {
    Ok(ModeSet {
        mode: reader.field("mode=")?,
    })
}

pub fn param_value(reader: &mut Reader<'_>) -> Result<ParamValue, Bad> {
    Ok(ParamValue {
        param_id: reader.field("param_id=")?,
        value: param_data(reader)?,
    })
}

fn param_data(reader: &mut Reader<'_>) -> Result<ParamData, Bad> {
    if reader.passes("float40=") {
        return Ok(ParamData::Float40(reader.value()?));
    }
    Ok(ParamData::Int24(reader.field("int24=")?))
}

pub fn radar_cal(reader: &mut Reader<'_>) -> Result<RadarCal, Bad> {
    Ok(RadarCal {
        range_mm: reader.field("range_mm=")?,
        height_mm: reader.field("height_mm=")?,
    })
}

fn dsp_query_resp(reader: &mut Reader<'_>) -> Result<DspQueryResp, Bad> {
    Ok(DspQueryResp {
        version: reader.field("version=")?,
        dsp_type: reader.field("dsp_type=")?,
        pcb: reader.field("pcb=")?,
    })
}

// The two bytes of its tail are looked at by no sequence.
fn time_sync(reader: &mut Reader<'_>, tail: &mut Vec<u8>) -> Result<TimeSync, Bad> {
    let sync = TimeSync {
        epoch: reader.field("epoch=")?,
        session: reader.field("session=")?,
    };
    reader.name("tail=")?;
    let start = *reader;
    reader.bytes(tail)?;
    if tail.len() != 2 {
        return Err(start.bad(Reason::OutOfRange));
    }
    Ok(sync)
}

fn cam_config(reader: &mut Reader<'_>) -> Result<CamConfig, Bad> {
    let with_picture = picture(reader, CamConfig::none())?;
    let with_raw = raw(reader, with_picture)?;
    buffer(reader, with_raw)
}

// The fields of a camera's configuration are read in three parts.
fn picture(reader: &mut Reader<'_>, config: CamConfig) -> Result<CamConfig, Bad> {
    Ok(CamConfig {
        dynamic_config: reader.field("dynamic_config=")?,
        resolution_width: reader.field("resolution_width=")?,
        resolution_height: reader.field("resolution_height=")?,
        rotation: reader.field("rotation=")?,
        ev: reader.field("ev=")?,
        quality: reader.field("quality=")?,
        framerate: reader.field("framerate=")?,
        streaming_framerate: reader.field("streaming_framerate=")?,
        ringbuffer_pretime_ms: reader.field("ringbuffer_pretime_ms=")?,
        ringbuffer_posttime_ms: reader.field("ringbuffer_posttime_ms=")?,
        ..config
    })
}

fn raw(reader: &mut Reader<'_>, config: CamConfig) -> Result<CamConfig, Bad> {
    Ok(CamConfig {
        raw_camera_mode: reader.field("raw_camera_mode=")?,
        fusion_camera_mode: reader.field("fusion_camera_mode=")?,
        raw_shutter_speed_max: reader.field("raw_shutter_speed_max=")?,
        raw_ev_roi_x: reader.field("raw_ev_roi_x=")?,
        raw_ev_roi_y: reader.field("raw_ev_roi_y=")?,
        raw_ev_roi_width: reader.field("raw_ev_roi_width=")?,
        raw_ev_roi_height: reader.field("raw_ev_roi_height=")?,
        raw_x_offset: reader.field("raw_x_offset=")?,
        raw_bin44: reader.field("raw_bin44=")?,
        raw_live_preview_write_interval_ms: reader.field("raw_live_preview_write_interval_ms=")?,
        raw_y_offset: reader.field("raw_y_offset=")?,
        ..config
    })
}

fn buffer(reader: &mut Reader<'_>, config: CamConfig) -> Result<CamConfig, Bad> {
    Ok(CamConfig {
        buffer_sub_sampling_pre_trigger_div: reader.field("buffer_sub_sampling_pre_trigger_div=")?,
        buffer_sub_sampling_post_trigger_div: reader.field(
            "buffer_sub_sampling_post_trigger_div=",
        )?,
        buffer_sub_sampling_switch_time_offset: reader.field(
            "buffer_sub_sampling_switch_time_offset=",
        )?,
        buffer_sub_sampling_total_buffer_size: reader.field(
            "buffer_sub_sampling_total_buffer_size=",
        )?,
        buffer_sub_sampling_pre_trigger_buffer_size: reader.field(
            "buffer_sub_sampling_pre_trigger_buffer_size=",
        )?,
        ..config
    })
}
