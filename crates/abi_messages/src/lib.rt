// Messages and envelopes, as a host hands them in.
#![tactic(auto)]

ghost use Rattle.std.specs.Prelude.{◌≡◌};
ghost use Rattle.abi_messages.specs.Messages.{dsp_status_in, dsp_status_out, message_in, envelope_in};

use abi_values::{CParamValue, UnknownNumber, addr_in};
use protocol::{
    AvrStatus, BusAddr, CamConfig, ConfigAck, DspQueryResp, DspStatus, DspStatus46, DspStatus80,
    Message, ModeSet, RadarCal, TimeSync,
};

// `v80` counts where `layout` is 0, `v46` where it is 1: C takes no enum.
#[repr(C)]
#[derive(Clone, Copy)]
pub struct CDspStatus {
    pub layout: u8,
    pub v80: DspStatus80,
    pub v46: DspStatus46,
}

// The record of its kind counts, and no other: C takes no enum, and so a kind is its place in the Rust's.
#[repr(C)]
#[derive(Clone, Copy)]
pub struct CMessage {
    pub kind: u8,
    pub avr_status: AvrStatus,
    pub dsp_status: CDspStatus,
    pub ack: ConfigAck,
    pub mode_set: ModeSet,
    pub param_value: CParamValue,
    pub radar_cal: RadarCal,
    pub dsp_query_resp: DspQueryResp,
    pub time_sync: TimeSync,
    pub cam_config: CamConfig,
}

// `params` are the numbers of a `ConfigResp`. Text and payload stand beside.
#[repr(C)]
#[derive(Clone, Copy)]
pub struct CEnvelope {
    pub src: u8,
    pub type_id: u8,
    pub message: CMessage,
    pub params: [i16; 34],
}

// An envelope as the sequences have it, but for its text and payload, which C lends as slices beside. (Crate envelope's refers to those,
// and stands above the sequences.)
#[derive(Clone, Copy)]
pub struct Envelope {
    pub src: BusAddr,
    pub type_id: u8,
    pub message: Message,
    pub params: [i16; 34],
}

impl TryFrom<CDspStatus> for DspStatus {
    type Error = UnknownNumber;

    ghost try_from_gives = { λ status r. r ≡ dsp_status_in status };

    fn try_from(status: CDspStatus) -> Result<DspStatus, UnknownNumber> {
        match status.layout {
            0 => Ok(DspStatus::V80(status.v80)),
            1 => Ok(DspStatus::V46(status.v46)),
            _ => Err(UnknownNumber),
        }
    }
}

// The fields of the other layout are 0.
impl From<DspStatus> for CDspStatus {
    ghost from_gives = { λ status r. r ≡ dsp_status_out status };

    fn from(status: DspStatus) -> CDspStatus {
        match status {
            DspStatus::V80(v80) => CDspStatus {
                layout: 0,
                v80,
                v46: DspStatus46 {
                    state: 0,
                    version: 0,
                },
            },
            DspStatus::V46(v46) => CDspStatus {
                layout: 1,
                v80: DspStatus80::none(),
                v46,
            },
        }
    }
}

// The layout of a DSP status and the format of a parameter are looked at where the message is one.
impl TryFrom<CMessage> for Message {
    type Error = UnknownNumber;

    ghost try_from_gives = { λ message r. r ≡ message_in message };

    fn try_from(message: CMessage) -> Result<Message, UnknownNumber> {
        Ok(match message.kind {
            0 => Message::AvrStatus(message.avr_status),
            1 => Message::DspStatus(message.dsp_status.try_into()?),
            2 => Message::PiStatus,
            3 => Message::ConfigAck(message.ack),
            4 => Message::ConfigNack(message.ack),
            5 => Message::ModeAck,
            6 => Message::Text,
            7 => Message::ModeSet(message.mode_set),
            8 => Message::ParamValue(message.param_value.try_into()?),
            9 => Message::RadarCal(message.radar_cal),
            10 => Message::ConfigResp,
            11 => Message::AvrConfigResp,
            12 => Message::DspQueryResp(message.dsp_query_resp),
            13 => Message::DevInfoResp,
            14 => Message::ProdInfoResp,
            15 => Message::NetConfigResp,
            16 => Message::CalParamResp,
            17 => Message::CalDataResp,
            18 => Message::TimeSync(message.time_sync),
            19 => Message::CamConfig(message.cam_config),
            20 => Message::Other,
            _ => return Err(UnknownNumber),
        })
    }
}

impl TryFrom<CEnvelope> for Envelope {
    type Error = UnknownNumber;

    ghost try_from_gives = { λ envelope r. r ≡ envelope_in envelope };

    fn try_from(envelope: CEnvelope) -> Result<Envelope, UnknownNumber> {
        Ok(Envelope {
            src: addr_in(envelope.src)?,
            type_id: envelope.type_id,
            message: envelope.message.try_into()?,
            params: envelope.params,
        })
    }
}
