// Numbers, bools, floats and the names of models and sources.
ghost use Rattle.std.specs.Prelude.{◌≡◌, true};
ghost use Rattle.words.specs.Digits.{is_hex_digit, hex_value};

use crate::reason::Reason;
use device::model::DeviceModel;
use protocol::BusAddr;
use std::num::f64_from_bits_with_nan;

// What a word, or the value of a field, can be read as.
pub trait Value: Sized {
    fn read(word: &[u8]) -> Result<Self, Reason>;
}

// What stands in a table beside a name.
pub fn named<T: Copy>(name: &[u8], table: &[(&str, T)]) -> Option<T> {
    table
        .iter()
        .find(|(known, _)| known.as_bytes() == name)
        .map(|(_, value)| *value)
}

// Whether a byte is a hexadecimal digit. No branch is taken, here and in `digit`: which digit comes can't be foretold.
pub(crate) fn is_hex(b: u8) -> bool {
    // small letters have this bit more than capitals
    let letter = (b | 0x20).wrapping_sub(b'a');
    (b.wrapping_sub(b'0') < 10) | (letter < 6)
}

// The value of a hexadecimal digit; of any other byte, some number below 16.
pub(crate) fn digit(b: u8) -> u8
    ensures { is_hex_digit b ≡ true → result ≡ hex_value b }
{
    (b % 16 + 9 * (b / 64)) % 16
}

// The number that digits write: decimal ones, or hexadecimal ones with a radix of 16. Not by std's `from_str_radix`, which would take a sign.
fn number(digits: &[u8], radix: u8) -> Result<u64, Reason> {
    if digits.is_empty() {
        return Err(Reason::NotANumber);
    }
    // what the digits so far write; `None` once that takes more than 64 bits
    let mut number = Some(0u64);
    for b in digits {
        let last = digit(*b);
        if !(is_hex(*b) & (last < radix)) {
            return Err(Reason::NotANumber);
        }
        number = number
            .and_then(|n| n.checked_mul(u64::from(radix)))
            .and_then(|n| n.checked_add(u64::from(last)));
    }
    number.ok_or(Reason::OutOfRange)
}

// A number without a sign.
fn magnitude(word: &[u8]) -> Result<u64, Reason> {
    match word.strip_prefix(b"0x") {
        Some(digits) => number(digits, 16),
        None => number(word, 10),
    }
}

fn unsigned<T: TryFrom<u64>>(word: &[u8]) -> Result<T, Reason>
where
    T::Error: Drop,
{
    T::try_from(magnitude(word)?).map_err(|_| Reason::OutOfRange)
}

fn signed<T: TryFrom<i64>>(word: &[u8]) -> Result<T, Reason>
where
    T::Error: Drop,
{
    let value = match word.strip_prefix(b"-") {
        Some(digits) => i64::try_from(number(digits, 10)?).map(|n| n.wrapping_neg()),
        None => i64::try_from(magnitude(word)?),
    };
    value
        .ok()
        .and_then(|n| T::try_from(n).ok())
        .ok_or(Reason::OutOfRange)
}

impl Value for u8 {
    fn read(word: &[u8]) -> Result<u8, Reason> {
        unsigned(word)
    }
}

impl Value for u16 {
    fn read(word: &[u8]) -> Result<u16, Reason> {
        unsigned(word)
    }
}

impl Value for u32 {
    fn read(word: &[u8]) -> Result<u32, Reason> {
        unsigned(word)
    }
}

impl Value for u64 {
    fn read(word: &[u8]) -> Result<u64, Reason> {
        magnitude(word)
    }
}

impl Value for i16 {
    fn read(word: &[u8]) -> Result<i16, Reason> {
        signed(word)
    }
}

impl Value for i32 {
    fn read(word: &[u8]) -> Result<i32, Reason> {
        signed(word)
    }
}

impl Value for bool {
    fn read(word: &[u8]) -> Result<bool, Reason> {
        match word {
            b"true" => Ok(true),
            b"false" => Ok(false),
            _ => Err(Reason::NotABool),
        }
    }
}

// By the 16 digits of its bits.
impl Value for f64 {
    fn read(word: &[u8]) -> Result<f64, Reason> {
        let digits = word.strip_prefix(b"0x").ok_or(Reason::NotAFloat)?;
        if digits.len() != 16 {
            return Err(Reason::NotAFloat);
        }
        let bits = number(digits, 16).map_err(|_| Reason::NotAFloat)?;
        let value = f64_from_bits_with_nan(bits);
        if value.is_nan() {
            return Err(Reason::Nan);
        }
        Ok(value)
    }
}

// A model that no unit has.
fn other(camera: bool, factory_cal: bool, power_mode: bool) -> DeviceModel {
    DeviceModel {
        camera,
        factory_cal,
        power_mode,
    }
}

// Each model has one spelling: its name, or for those that no unit has whether there are a camera, a factory calibration and a power mode.
impl Value for DeviceModel {
    fn read(word: &[u8]) -> Result<DeviceModel, Reason> {
        Ok(match word {
            b"Mevo" => DeviceModel::MEVO,
            b"Xi" => DeviceModel::XI,
            b"Rig" => DeviceModel::RIG,
            b"no/no/no" => other(false, false, false),
            b"no/yes/yes" => other(false, true, true),
            b"yes/no/no" => other(true, false, false),
            b"yes/no/yes" => other(true, false, true),
            b"yes/yes/yes" => other(true, true, true),
            _ => return Err(Reason::UnknownModel),
        })
    }
}

impl Value for BusAddr {
    fn read(word: &[u8]) -> Result<BusAddr, Reason> {
        match word {
            b"App" => Ok(BusAddr::App),
            b"Pi" => Ok(BusAddr::Pi),
            b"Avr" => Ok(BusAddr::Avr),
            b"Dsp" => Ok(BusAddr::Dsp),
            _ => Err(Reason::UnknownSource),
        }
    }
}
