// Fields that `write!` has no format for, or of which a state has many: ` NAME=VALUE` each.
ghost use Rattle.std.specs.Prelude.{◌≡◌};
ghost use Rattle.writing.specs.Floats.{written_bits};

use crate::write;
use itoa::Integer;
use protocol::Stored;
use std::io;
use std::io::Write;

// A float by its bits. A NaN's are those of the quiet one: its own can't be had.
pub fn bits(x: f64) -> u64
    ensures { result ≡ written_bits x }
{
    if x.is_nan() {
        return 0x7FF8_0000_0000_0000;
    }
    x.to_bits()
}

// The name of a field. There are many of them in a state, and with `write!` for the name bytes took twice as long.
pub fn named<W: Write>(out: &mut W, name: &str) -> io::Result<()> {
    out.write_all(b" ")?;
    out.write_all(name.as_bytes())?;
    out.write_all(b"=")
}

// A record, as `write` writes it, or `none`.
pub fn optional<T, W: Write, F: FnOnce(&mut W, &T) -> io::Result<()>>(
    out: &mut W,
    name: &str,
    record: &Option<T>,
    write: F,
) -> io::Result<()>
    requires { F.IsAlwaysCallable write }
{
    match record {
        Some(record) => write(out, record),
        None => {
            named(out, name)?;
            out.write_all(b"none")
        }
    }
}

// A number.
pub fn number<W: Write, I: Integer>(out: &mut W, name: &str, n: I) -> io::Result<()> {
    named(out, name)?;
    write::number(out, n)
}

// A float, by its bits.
pub fn float<W: Write>(out: &mut W, name: &str, x: f64) -> io::Result<()> {
    named(out, name)?;
    out.write_all(b"0x")?;
    write::digits(out, &bits(x).to_be_bytes())
}

// Bytes, as digits and as text.
pub fn bytes<W: Write>(out: &mut W, name: &str, s: &[u8]) -> io::Result<()> {
    named(out, name)?;
    write::digits_and_text(out, s)
}

pub fn stored<W: Write>(out: &mut W, name: &str, s: &Stored) -> io::Result<()> {
    bytes(out, name, s.as_slice())
}
