// The model of a unit, as its device info names it (src/protocol/handshake.rs).
ghost use Rattle.std.specs.Prelude.{◌≡◌};
ghost use Rattle.device.specs.Tag.{Theorem};
ghost use Rattle.device.specs.Model.{model_of, model_in, tag_place, tag_place_in, has_camera, has_factory_cal, has_power_mode, is_xi};

use crate::search;
use protocol::DevInfoResp;

/// What a unit has: three facts. Every sequence, the keepalive and the arm go by these and by no name; all eight combinations run.
///
/// Has no `Default`, which in seq.rs takes a Mevo without asking: use `new_for(result.model)` with the model that the DSP's result names.
#[repr(C)]
#[derive(Clone, Copy, PartialEq, Eq)]
pub struct DeviceModel {
    /// A camera, and so a Pi.
    pub camera: bool,
    /// The AVR's factory calibration and settings query.
    pub factory_cal: bool,
    /// The DSP's power-mode step.
    pub power_mode: bool,
}

impl DeviceModel {
    /// Mevo+ or Mevo Gen2: radar and camera.
    pub const MEVO: DeviceModel = DeviceModel {
        camera: true,
        factory_cal: true,
        power_mode: false,
    };

    /// Radar only.
    pub const XI: DeviceModel = DeviceModel {
        camera: false,
        factory_cal: false,
        power_mode: true,
    };

    /// The practice rig of a classroom: it speaks like a Mevo that has no camera.
    pub const RIG: DeviceModel = DeviceModel {
        camera: false,
        factory_cal: true,
        power_mode: false,
    };

    /// The model that a device-info payload names (`from_dev_info` of src/protocol/handshake.rs, which knows no rig): a Xi where "FS Xi"
    /// stands in it, else the rig where "BAY RIG" does, else a Mevo.
    pub fn from_dev_info(payload: &[u8]) -> DeviceModel
        ensures { result ≡ model_of payload.now }
    {
        if search::find(payload, b"FS Xi").is_some() {
            return DeviceModel::XI;
        }
        if search::find(payload, b"BAY RIG").is_some() {
            return DeviceModel::RIG;
        }
        DeviceModel::MEVO
    }

    // The model that a stored device info names, Mevo before there is one.
    pub fn from_stored(info: Option<DevInfoResp>) -> DeviceModel
        ensures { result ≡ model_in info }
    {
        match info {
            Some(info) => DeviceModel::from_dev_info(info.payload.as_slice()),
            None => DeviceModel::MEVO,
        }
    }

    /// The place, counted from 0, of the tag that decides the model of a device-info payload: of the first "FS Xi" on a Xi, of the first
    /// "BAY RIG" on a rig; none on a Mevo, which has no tag. The Rust has no such call.
    pub fn tag_place(payload: &[u8]) -> Option<usize>
        ensures { result ≡ tag_place payload.now }
    {
        search::find(payload, b"FS Xi").or(search::find(payload, b"BAY RIG"))
    }

    /// That of a stored device info; none before there is one.
    pub fn tag_place_in(info: Option<DevInfoResp>) -> Option<usize>
        ensures { result ≡ tag_place_in info }
    {
        match info {
            Some(info) => DeviceModel::tag_place(info.payload.as_slice()),
            None => None,
        }
    }

    // Whether it has a camera, and so a Pi.
    pub fn has_camera(self) -> bool
        ensures { result ≡ has_camera self }
    {
        self.camera
    }

    // Whether its AVR has the factory calibration and the settings query.
    pub fn has_factory_cal(self) -> bool
        ensures { result ≡ has_factory_cal self }
    {
        self.factory_cal
    }

    // Whether its DSP has the power-mode step.
    pub fn has_power_mode(self) -> bool
        ensures { result ≡ has_power_mode self }
    {
        self.power_mode
    }

    /// Whether it has a Xi's three facts, and so is sent result acknowledgements.
    pub fn is_xi(self) -> bool
        ensures { result ≡ is_xi self }
    {
        self == DeviceModel::XI
    }
}

/// The place that is told of a tag is that of the tag which decides the model: of a Xi's on a Xi, of the rig's on a rig; of a Mevo none is.
pub fn tag_decides()
    ensures { Theorem }
{}
