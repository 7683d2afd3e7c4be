// The names of sources and models, numbers and bytes.
use device::model::DeviceModel;
use itoa::{Buffer, Integer};
use protocol::BusAddr;
use std::io::Write;
use std::{fmt, io};

// So many bytes are written at once.
const ROW: usize = 64;

// A source as it is written: its name. A struct around it, since `Display` may not stand beside an enum of another crate.
#[derive(Clone, Copy)]
pub struct Source(pub BusAddr);

impl fmt::Display for Source {
    fn fmt<W: fmt::Write>(&self, f: &mut fmt::Formatter<W>) -> fmt::Result {
        f.write_str(match self.0 {
            BusAddr::App => "App",
            BusAddr::Pi => "Pi",
            BusAddr::Avr => "Avr",
            BusAddr::Dsp => "Dsp",
        })
    }
}

// A model as it is written: its name, or the three facts of one that no unit has. A struct, as `Source` is.
#[derive(Clone, Copy)]
pub struct Model(pub DeviceModel);

impl fmt::Display for Model {
    fn fmt<W: fmt::Write>(&self, f: &mut fmt::Formatter<W>) -> fmt::Result {
        let model = self.0;
        f.write_str(match (model.camera, model.factory_cal, model.power_mode) {
            (true, true, false) => "Mevo",
            (false, false, true) => "Xi",
            (false, true, false) => "Rig",
            (false, false, false) => "no/no/no",
            (false, true, true) => "no/yes/yes",
            (true, false, false) => "yes/no/no",
            (true, false, true) => "yes/no/yes",
            (true, true, true) => "yes/yes/yes",
        })
    }
}

fn digit(n: u8) -> u8 {
    let low = n % 16;
    if low < 10 {
        b'0' + low
    } else {
        b'A' - 10 + low
    }
}

// A byte as it is shown: a dot for one that can't be.
fn shown(b: u8) -> u8 {
    match b {
        0x20..=0x7E => b,
        _ => b'.',
    }
}

// Bytes that are put together, and then written at once. Those for which there is no room are lost.
#[derive(Clone, Copy)]
pub struct Row {
    bytes: [u8; ROW],
    len: usize,
}

impl Row {
    pub fn new() -> Row {
        Row {
            bytes: [0; ROW],
            len: 0,
        }
    }

    pub fn push(&mut self, b: u8) {
        if let Some(to) = self.bytes.get_mut(self.len) {
            *to = b;
        }
        self.len = self.len.saturating_add(1);
    }

    pub fn number<I: Integer>(&mut self, n: I) {
        for b in Buffer::new().format(n).as_bytes() {
            self.push(*b);
        }
    }

    pub fn as_slice(&self) -> &[u8] {
        &self.bytes[..self.len.min(ROW)]
    }
}

// A number, by the kit's `itoa`: a state has many, and `write!` goes through several writes for each.
pub fn number<W: Write, I: Integer>(out: &mut W, n: I) -> io::Result<()> {
    out.write_all(Buffer::new().format(n).as_bytes())
}

// Writes a byte for each of these. A row at a time: with a `write!` for each it took more than ten times as long.
pub fn each<W: Write, F: Fn(u8) -> u8>(out: &mut W, s: &[u8], written: F) -> io::Result<()>
    requires { F.IsAlwaysCallable written }
{
    for row in s.chunks(ROW) {
        let mut text = [0u8; ROW];
        for (to, b) in text.iter_mut().zip(row) {
            *to = written(*b);
        }
        out.write_all(&text[..row.len().min(ROW)])?;
    }
    Ok(())
}

// Bytes as hexadecimal digits. It is no `each` of N bytes in place of one: a bound `Fn` that names a const parameter gets no proof.
pub fn digits<W: Write>(out: &mut W, s: &[u8]) -> io::Result<()> {
    for row in s.chunks(ROW) {
        let mut digits = [[0u8; 2]; ROW];
        for (pair, b) in digits.iter_mut().zip(row) {
            *pair = [digit(*b / 16), digit(*b)];
        }
        out.write_all(digits[..row.len().min(ROW)].as_flattened())?;
    }
    Ok(())
}

// Digits, and the bytes that they stand for.
pub fn digits_and_text<W: Write>(out: &mut W, s: &[u8]) -> io::Result<()> {
    digits(out, s)?;
    out.write_all(b"|")?;
    each(out, s, shown)?;
    out.write_all(b"|")
}

// Bytes between quotes, as a list has a text: those that can't be shown there, and quotes and backslashes, by their digits.
pub fn text<W: Write>(out: &mut W, s: &[u8]) -> io::Result<()> {
    out.write_all(b"\"")?;
    for b in s {
        match *b {
            b'"' | b'\\' | 0..=0x1F | 0x7F..=0xFF => write!(out, "\\x{b:02X}")?,
            _ => out.write_all(&[*b])?,
        }
    }
    out.write_all(b"\"")
}
