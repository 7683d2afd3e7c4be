// The byte of a bus address.
ghost use Rattle.std.specs.Prelude.{◌≡◌};
ghost use Rattle.protocol.specs.Addr.{byte_of};

use crate::BusAddr;

impl BusAddr {
    pub fn as_byte(self) -> u8
        ensures { result ≡ byte_of self }
    {
        self as u8
    }
}
