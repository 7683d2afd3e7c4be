// Why a line can't be read, and where.
use std::error::Error;
use std::fmt;

#[derive(Clone, Copy, Debug, PartialEq, Eq)]
pub enum Reason {
    UnknownCall,
    UnknownModel,
    UnknownSource,
    UnknownStartUp,
    UnknownKind,
    // a field's name, with its =
    Expected(&'static str),
    NotANumber,
    OutOfRange,
    NotABool,
    NotAFloat,
    Nan,
    NotHex,
    OddHex,
    ControlByte,
    BadEscape,
    NotClosed,
    Not34,
    NoEnd,
    NotBegun,
    NotItsCall,
    LongLine,
}

// A line that can't be read from this byte on, counted from 0.
#[derive(Clone, Copy, Debug, PartialEq, Eq)]
pub struct Bad {
    pub at: usize,
    pub why: Reason,
}

impl fmt::Display for Reason {
    fn fmt<W: fmt::Write>(&self, f: &mut fmt::Formatter<W>) -> fmt::Result {
        f.write_str(match self {
            Reason::Expected(name) => return write!(f, "{name} expected"),
            Reason::UnknownCall => "unknown call: docs/REPLAY.md names them all",
            Reason::UnknownModel =>
                "unknown model: Mevo, Xi or Rig expected, or the facts of another, as no/yes/yes",
            Reason::UnknownSource => "unknown source: App, Pi, Avr or Dsp expected",
            Reason::UnknownStartUp => "unknown start-up: D, A or P expected",
            Reason::UnknownKind => {
                "unknown kind: docs/REPLAY.md names them all, and capitals count"
            }
            Reason::NotANumber => {
                "not a number: write one as 12 or 0x0C; a type id stands before the kind"
            }
            Reason::OutOfRange => "out of range",
            Reason::NotABool => "not a bool",
            Reason::NotAFloat => "not a float",
            Reason::Nan => "a NaN can't be read",
            Reason::NotHex => {
                "not a hex digit: bytes are pairs of digits without 0x, or a text in double quotes"
            }
            Reason::OddHex => "odd number of hex digits",
            Reason::ControlByte => "control byte in a text",
            Reason::BadEscape => "bad escape",
            Reason::NotClosed => "text not closed",
            Reason::Not34 => "34 numbers expected",
            Reason::NoEnd => {
                "end of line expected: a text or payload stands behind its name and =, a comment on a line of its own"
            }
            Reason::NotBegun => {
                "no sequence has begun: a line such as dsp, avr Xi or arm begins one"
            }
            Reason::NotItsCall => "not a call of this sequence",
            Reason::LongLine => "line longer than 65536 bytes",
        })
    }
}

impl fmt::Display for Bad {
    fn fmt<W: fmt::Write>(&self, f: &mut fmt::Formatter<W>) -> fmt::Result {
        let column = self.at.saturating_add(1);
        let why = self.why;
        write!(f, "bad line at column {column}: {why}")
    }
}

impl Error for Bad {}
