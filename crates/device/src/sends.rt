// The sends that belong to no sequence (src/seq.rs).
ghost use Rattle.std.specs.Prelude.{◌≡◌};
ghost use Rattle.device.specs.Model.{mevo};
ghost use Rattle.device.specs.Sends.{is_result, result_ack, keepalive_for};

use crate::model::DeviceModel;
use protocol::{Action, BusAddr, Command, ConfigAck};
use requests::status_poll;

const TYPE_FLIGHT_RESULT: u8 = 0xD4;

const TYPE_FLIGHT_RESULT_V1: u8 = 0xE8;

fn is_result(type_id: u8) -> bool
    ensures { result ≡ is_result type_id }
{
    type_id == TYPE_FLIGHT_RESULT_V1 || type_id == TYPE_FLIGHT_RESULT
}

// The app's acknowledgement of a flight result, sent for exactly a Xi's three facts.
pub fn result_ack(model: DeviceModel, src: BusAddr, type_id: u8) -> Option<Action>
    ensures { result ≡ result_ack model src type_id }
{
    if !model.is_xi() {
        return None;
    }
    let BusAddr::Avr = src else {
        return None;
    };
    if !is_result(type_id) {
        return None;
    }
    let ack = Command::ConfigAck(ConfigAck::for_result(type_id));
    Some(Action::send(ack, BusAddr::Avr))
}

/// Takes a Mevo without asking, as in seq.rs: use `keepalive_actions_for(result.model)` with the model that the DSP's result names.
pub fn keepalive_actions() -> [Option<Action>; 3]
    ensures { result ≡ keepalive_for mevo }
{
    keepalive_actions_for(DeviceModel::MEVO)
}

// A keepalive poll on this model, in the order of sending; what is not sent is none.
pub fn keepalive_actions_for(model: DeviceModel) -> [Option<Action>; 3]
    ensures { result ≡ keepalive_for model }
{
    let pi = if model.has_camera() {
        Some(status_poll(true, BusAddr::Pi))
    } else {
        None
    };
    [
        Some(status_poll(false, BusAddr::Dsp)),
        Some(status_poll(false, BusAddr::Avr)),
        pi,
    ]
}
