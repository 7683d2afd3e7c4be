// The acknowledgement that we send.
ghost use Rattle.std.specs.Prelude.{◌≡◌};
ghost use Rattle.protocol.specs.Ack.{ack_of};

use crate::{BusAddr, ConfigAck};

impl ConfigAck {
    // The app's acknowledgement of a frame of this type.
    pub fn for_result(type_id: u8) -> ConfigAck
        ensures { result ≡ ack_of type_id }
    {
        ConfigAck {
            bus_addr: BusAddr::App.as_byte(),
            acked_cmd: type_id & 0x7F,
        }
    }
}
