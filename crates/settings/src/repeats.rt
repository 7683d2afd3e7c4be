// Whether a parameter's id occurs twice (no rule of src/seq.rs, which sends what it is given).
ghost use Rattle.std.specs.Prelude.{◌≡◌};
ghost use Rattle.settings.specs.Repeats.{Found, MevoDiffers, counted, occurs, repeats};

use crate::{AvrSettings, MAX_PARAMS};
use protocol::ParamValue;

fn occurs(params: &[ParamValue], id: u8) -> bool
    ensures { result ≡ occurs id params.now }
{
    params.iter().any(|p| p.param_id == id)
}

/// Whether an id occurs twice, at neighbouring places or far apart. The values, and their kinds, are not looked at.
pub fn has_repeat(params: &[ParamValue]) -> bool
    ensures { result ≡ repeats params.now }
{
    match params {
        [] => false,
        [first, rest @ ..] => occurs(rest, first.param_id) || has_repeat(rest),
    }
}

impl AvrSettings {
    /// Whether an id occurs twice among the parameters that count: the first `len`, and no more than 32.
    pub fn has_repeat(self) -> bool
        ensures { result ≡ repeats (counted self) }
    {
        has_repeat(&self.params[..self.len.min(MAX_PARAMS)])
    }
}

/// `has_repeat` is true of exactly the lists in which one id stands at two different places.
pub fn repeats_found()
    ensures { Found }
{}

/// The three ids of a Mevo's settings differ.
pub fn mevo_differs()
    ensures { MevoDiffers }
{}
