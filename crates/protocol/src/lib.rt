// The records of src/protocol and src/addr.rs that the sequences work with. Encoding and decoding are the host's.
#![tactic(auto)]

ghost use Rattle.std.specs.Prelude.{◌≡◌};
ghost use Rattle.protocol.specs.Action.{send_to};

mod absent;
mod addr;
pub mod number;
mod status;
mod store;

// ---- bus addresses of the unit's internal network (src/addr.rs), each with its byte

#[derive(Clone, Copy, PartialEq, Eq)]
pub enum BusAddr {
    // the client application
    App = 0x10,
    // the camera's Raspberry Pi
    Pi = 0x12,
    // the AVR microcontroller (radar I/O, battery)
    Avr = 0x30,
    // the digital signal processor (radar core)
    Dsp = 0x40,
}

// ---- the bytes that a reply stores, for the Rust's `String` and `Vec<u8>`

// The first `len` of `bytes`; the bytes after them are 0. No `Vec`: a reply is stored without a heap, and C holds it by value.
#[repr(C)]
#[derive(Clone, Copy)]
pub struct Stored {
    pub bytes: [u8; 256],
    pub len: usize,
}

// ---- why a call is refused, each with its number

#[derive(Clone, Copy, PartialEq, Eq)]
pub enum Refusal {
    TextTooLong = 1,
    PayloadTooLong = 2,
    ReadingTooLarge = 3,
    TooManyParams = 4,
    RepeatedParam = 6,
    ReadingBelowLast = 11,
    NotDone = 12,
    RetriesFull = 13,
}

// ---- status and acknowledgement records (src/protocol/status.rs)
// `PiStatus`, `ModeAck` and `Text` hold nothing but bytes, or nothing.

#[repr(C)]
#[derive(Clone, Copy)]
pub struct StatusPoll {
    pub pi_mode: bool,
}

#[repr(C)]
#[derive(Clone, Copy, Default)]
pub struct AvrStatus {
    pub version: u8,
    // 0 idle, 1 armed, 2 arming, 3 tracking
    pub state: u8,
    pub hw_id_hi: u8,
    pub hw_id_lo: u8,
    pub full_app_id: i32,
    pub temperature: f64,
    pub tilt: f64,
    pub roll: f64,
}

// The Mevo+'s layout (version 0x80).
#[repr(C)]
#[derive(Clone, Copy, Default)]
pub struct DspStatus80 {
    pub state: u8,
    pub input_voltage_usb: i16,
    pub system_voltage: i16,
    pub battery_current: i16,
    pub temperature_raw: i16,
    pub battery_voltage: i16,
    pub battery_voltage_2: i16,
    pub power_level: i16,
    pub external_power: bool,
}

// The Gen2's layout (version 0x46). Its payload stands beside.
#[repr(C)]
#[derive(Clone, Copy)]
pub struct DspStatus46 {
    pub state: u8,
    pub version: u8,
}

#[derive(Clone, Copy)]
pub enum DspStatus {
    V80(DspStatus80),
    V46(DspStatus46),
}

#[repr(C)]
#[derive(Clone, Copy)]
pub struct ConfigAck {
    // the side that acknowledges: a bus address
    pub bus_addr: u8,
    // the low 7 bits of the acknowledged type
    pub acked_cmd: u8,
}

// A nack with the source and the type id of its envelope.
#[derive(Clone, Copy)]
pub struct Nack {
    pub src: BusAddr,
    pub type_id: u8,
    pub nack: ConfigAck,
}

// ---- configuration records (src/protocol/config.rs)

#[repr(C)]
#[derive(Clone, Copy)]
pub struct ModeSet {
    pub mode: u8,
}

#[repr(C)]
#[derive(Clone, Copy)]
pub struct AvrConfigCmd {
    // true arms, false opens or commits a configuration
    pub arm: bool,
}

#[repr(C)]
#[derive(Clone, Copy)]
pub struct ParamReadReq {
    pub param_id: u8,
}

#[derive(Clone, Copy)]
pub enum ParamData {
    Int24(i32),
    Float40(f64),
}

#[derive(Clone, Copy)]
pub struct ParamValue {
    pub param_id: u8,
    pub value: ParamData,
}

#[repr(C)]
#[derive(Clone, Copy)]
pub struct RadarCal {
    pub range_mm: u16,
    pub height_mm: u8,
}

#[repr(C)]
#[derive(Clone, Copy)]
pub struct ConfigResp {
    pub params: [i16; 34],
}

#[repr(C)]
#[derive(Clone, Copy)]
pub struct AvrConfigResp {
    pub payload: Stored,
}

// ---- handshake records (src/protocol/handshake.rs)
// The replies that hold bytes are those that a sequence stores.

#[repr(C)]
#[derive(Clone, Copy)]
pub struct DspQueryResp {
    pub version: u8,
    // 0x80 Mevo+, 0xC0 Gen2
    pub dsp_type: u8,
    pub pcb: u8,
}

#[repr(C)]
#[derive(Clone, Copy)]
pub struct DevInfoResp {
    pub text: Stored,
    pub payload: Stored,
}

#[repr(C)]
#[derive(Clone, Copy)]
pub struct ProdInfoReq {
    pub sub_query: u8,
}

#[repr(C)]
#[derive(Clone, Copy)]
pub struct ProdInfoResp {
    pub text: Stored,
}

#[repr(C)]
#[derive(Clone, Copy)]
pub struct NetConfigReq {
    pub query_password: bool,
}

#[repr(C)]
#[derive(Clone, Copy)]
pub struct CalParamResp {
    pub payload: Stored,
}

// Its ten bytes stand in `Action`.
#[repr(C)]
#[derive(Clone, Copy)]
pub struct CalDataReq {
    pub sub_cmd: u8,
}

#[repr(C)]
#[derive(Clone, Copy)]
pub struct CalDataResp {
    pub payload: Stored,
}

// The tail of one that is sent stands in `Action`.
#[repr(C)]
#[derive(Clone, Copy)]
pub struct TimeSync {
    // seconds since 1970
    pub epoch: u32,
    pub session: u8,
}

// ---- the camera's configuration (src/protocol/camera.rs)

#[repr(C)]
#[derive(Clone, Copy, Default)]
pub struct CamConfig {
    pub dynamic_config: bool,
    pub resolution_width: i16,
    pub resolution_height: i16,
    pub rotation: i16,
    pub ev: i16,
    pub quality: u8,
    pub framerate: u8,
    pub streaming_framerate: u8,
    pub ringbuffer_pretime_ms: i16,
    pub ringbuffer_posttime_ms: i16,
    pub raw_camera_mode: u8,
    pub fusion_camera_mode: bool,
    pub raw_shutter_speed_max: f64,
    pub raw_ev_roi_x: i16,
    pub raw_ev_roi_y: i16,
    pub raw_ev_roi_width: i16,
    pub raw_ev_roi_height: i16,
    pub raw_x_offset: i16,
    pub raw_bin44: bool,
    pub raw_live_preview_write_interval_ms: i16,
    pub raw_y_offset: i16,
    pub buffer_sub_sampling_pre_trigger_div: i16,
    pub buffer_sub_sampling_post_trigger_div: i16,
    pub buffer_sub_sampling_switch_time_offset: f64,
    pub buffer_sub_sampling_total_buffer_size: i16,
    pub buffer_sub_sampling_pre_trigger_buffer_size: i16,
}

// ---- messages and sends

// What the unit sends us: the 20 kinds that some sequence acts on, and `Other` for the 15 that none does. The bytes of a kind
// (text, payload, the 34 numbers of a `ConfigResp`) stand beside the message.
#[derive(Clone, Copy)]
pub enum Message {
    AvrStatus(AvrStatus),
    DspStatus(DspStatus),
    PiStatus,
    ConfigAck(ConfigAck),
    ConfigNack(ConfigAck),
    ModeAck,
    Text,
    ModeSet(ModeSet),
    ParamValue(ParamValue),
    RadarCal(RadarCal),
    ConfigResp,
    AvrConfigResp,
    DspQueryResp(DspQueryResp),
    DevInfoResp,
    ProdInfoResp,
    NetConfigResp,
    CalParamResp,
    CalDataResp,
    TimeSync(TimeSync),
    CamConfig(CamConfig),
    Other,
}

// What we send: the commands of the six sequences, of the result acknowledgement and of the keepalive.
#[derive(Clone, Copy)]
pub enum Command {
    StatusPoll(StatusPoll),
    ModeSet(ModeSet),
    AvrConfigCmd(AvrConfigCmd),
    ParamReadReq(ParamReadReq),
    ParamValue(ParamValue),
    RadarCal(RadarCal),
    DspQuery,
    ConfigQuery,
    AvrConfigQuery,
    DevInfoReq,
    ProdInfoReq(ProdInfoReq),
    NetConfigReq(NetConfigReq),
    CalParamReq,
    CalDataReq(CalDataReq),
    TimeSync(TimeSync),
    CamConfigReq,
    ConfigAck(ConfigAck),
}

// One command to send. `payload` is that of a `CalDataReq`, `tail` that of a `TimeSync`; both are 0 beside any other command.
#[derive(Clone, Copy)]
pub struct Action {
    pub command: Command,
    pub dest: BusAddr,
    pub payload: [u8; 10],
    pub tail: [u8; 2],
}

impl Action {
    // A command that has no bytes beside it.
    pub fn send(command: Command, dest: BusAddr) -> Action
        ensures { result ≡ send_to dest command }
    {
        Action {
            command,
            dest,
            payload: [0u8; 10],
            tail: [0u8; 2],
        }
    }
}
