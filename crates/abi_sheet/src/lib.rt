// The ticks of a start-up as a host holds them: a number where the sheet has an enum, as abi_values has it.
#![tactic(auto)]

ghost use Rattle.std.specs.Prelude.{◌≡◌};
ghost use Rattle.abi_sheet.specs.Ticks.{how_in, how_out, tick_in, tick_out, ticks_in, ticks_out};

use abi_values::UnknownNumber;
use sheet::{How, Tick, Ticks};

// `how` is 0 for a reply or an acknowledgement, 1 for a nack, 2 for a check: C takes no enum.
#[repr(C)]
#[derive(Clone, Copy)]
pub struct CTick {
    pub reading: u64,
    pub how: u8,
}

// The `how` of each of the 16 places is looked at: a host leaves those past `len` 0.
#[repr(C)]
#[derive(Clone, Copy)]
pub struct CTicks {
    pub ticks: [CTick; 16],
    pub len: usize,
}

// How an entry was ticked, by number, since C takes no enum. Functions, and no `TryFrom` and `From`: both types stand in crates below.
fn how_in(number: u8) -> Result<How, UnknownNumber>
    ensures { result ≡ how_in number }
{
    match number {
        0 => Ok(How::Reply),
        1 => Ok(How::Nack),
        2 => Ok(How::Check),
        _ => Err(UnknownNumber),
    }
}

fn how_out(how: How) -> u8
    ensures { result ≡ how_out how }
{
    how as u8
}

impl TryFrom<CTick> for Tick {
    type Error = UnknownNumber;

    ghost try_from_gives = { λ c r. r ≡ tick_in c };

    fn try_from(c: CTick) -> Result<Tick, UnknownNumber> {
        Ok(Tick {
            reading: c.reading,
            how: how_in(c.how)?,
        })
    }
}

impl From<Tick> for CTick {
    ghost from_gives = { λ tick r. r ≡ tick_out tick };

    fn from(tick: Tick) -> CTick {
        CTick {
            reading: tick.reading,
            how: how_out(tick.how),
        }
    }
}

impl TryFrom<CTicks> for Ticks {
    type Error = UnknownNumber;

    ghost try_from_gives = { λ c r. r ≡ ticks_in c };

    fn try_from(c: CTicks) -> Result<Ticks, UnknownNumber> {
        Ok(Ticks {
            ticks: c.ticks.try_map(Tick::try_from)?,
            len: c.len,
        })
    }
}

impl From<Ticks> for CTicks {
    ghost from_gives = { λ ticks r. r ≡ ticks_out ticks };

    fn from(ticks: Ticks) -> CTicks {
        CTicks {
            ticks: ticks.ticks.map(CTick::from),
            len: ticks.len,
        }
    }
}
