// The model, and the sends that belong to no sequence.
ghost use Rattle.std.specs.Prelude.{◌≡◌};
ghost use Rattle.device.specs.Model.{model_of};
ghost use Rattle.host.specs.Sends.{result_ack, keepalive};

use crate::UNKNOWN;
use abi::action::CAction;
use abi_values::addr_in;
use device::model::DeviceModel;
use device::sends;

#[repr(C)]
#[derive(Clone, Copy)]
pub struct CSent {
    pub refusal: u8,
    pub action: CAction,
}

#[repr(C)]
#[derive(Clone, Copy)]
pub struct CKeepalive {
    pub actions: [CAction; 3],
}

// The model that a device-info payload names.
#[unsafe(no_mangle)]
pub extern "C" fn wigtalom_model(payload: &[u8]) -> DeviceModel
    ensures { result ≡ model_of payload.now }
{
    DeviceModel::from_dev_info(payload)
}

#[unsafe(no_mangle)]
pub extern "C" fn wigtalom_result_ack(model: DeviceModel, src: u8, type_id: u8) -> CSent
    ensures { result ≡ result_ack model src type_id }
{
    let Ok(src) = addr_in(src) else {
        return CSent {
            refusal: UNKNOWN,
            action: CAction::none(),
        };
    };
    CSent {
        refusal: 0,
        action: sends::result_ack(model, src, type_id).into(),
    }
}

#[unsafe(no_mangle)]
pub extern "C" fn wigtalom_keepalive(model: DeviceModel) -> CKeepalive
    ensures { result ≡ keepalive model }
{
    let polls = sends::keepalive_actions_for(model);
    CKeepalive {
        actions: polls.map(CAction::from),
    }
}
