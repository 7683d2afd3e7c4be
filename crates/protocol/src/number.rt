// The number of a refusal, and which is given.
ghost use Rattle.std.specs.Prelude.{◌≡◌};
ghost use Rattle.protocol.specs.Refusals.{number};
ghost use Rattle.protocol.specs.Lowest.{Theorem};

use crate::Refusal;

impl Refusal {
    pub fn number(self) -> u8
        ensures { result ≡ number self }
    {
        self as u8
    }
}

/// Of a list of refusals whose numbers rise the number given is the lowest that applies; and no two refusals share a number.
pub fn lowest_number()
    ensures { Theorem }
{}
