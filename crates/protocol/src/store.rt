// Storing bytes.
ghost use Rattle.std.specs.Prelude.{◌≡◌, []};
ghost use Rattle.protocol.specs.Stored.{stored, content};

use crate::{DevInfoResp, Stored};

impl Stored {
    #[tactic(auto, unfolding(crate::specs::Stored::stored))]
    pub fn empty() -> Stored
        ensures { result ≡ stored [] }
    {
        Stored {
            bytes: [0u8; 256],
            len: 0,
        }
    }

    // The slice, or its first 256 bytes where it is longer.
    pub fn from_slice(s: &[u8]) -> Stored
        ensures { result ≡ stored s.now }
    {
        let mut bytes = [0u8; 256];
        let len = s.len().min(256);
        bytes[..len].copy_from_slice(&s[..len]);
        Stored { bytes, len }
    }

    // The bytes that are stored; a length past the array takes them all.
    pub fn as_slice(&self) -> &[u8]
        ensures { result.now ≡ content self.now }
    {
        &self.bytes[..self.len.min(256)]
    }
}

impl DevInfoResp {
    // What is stored of a device info that comes with these bytes.
    pub fn from_slices(text: &[u8], payload: &[u8]) -> DevInfoResp
        ensures { result ≡ record { text = stored text.now; payload = stored payload.now } }
    {
        DevInfoResp {
            text: Stored::from_slice(text),
            payload: Stored::from_slice(payload),
        }
    }
}
